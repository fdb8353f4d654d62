//! The present call.

ghost use Rattle.std.specs.Prelude.{◌≡◌, ◌+◌, ◌*◌, ◌<◌, ◌≤◌, ◌++◌, ◌∷◌, [], length, remove};
ghost use Rattle.pmem_words.specs.Owned.{without_block};
ghost use Rattle.pmem_words.specs.Seats.{q_of};
ghost use Rattle.pmem_words.specs.declared.TheConstants.{JOB_BYTES};

use super::SeatState;
use crate::keeps::Task;
use crate::lists::{append, remove_words};

impl SeatState {
    /// The present call, or the machine that is driven alone.
    pub fn job(&self) -> Task
        ensures { result ≡ self.now.calling.job }
    {
        self.job
    }

    /// Sets the present call. A call begins with this.
    pub fn set_job(&mut self, job: Task)
        ensures { self.new ≡ record self.old { calling = record self.old.calling { job = job } } }
    {
        self.job = job;
    }

    /// The bytes of the present call: those that it writes, or those that a read has laid so far.
    pub fn bytes(&self) -> &[u8]
        ensures { result.now ≡ self.now.calling.bytes }
    {
        self.bytes.as_slice()
    }

    /// Makes these the bytes of the call, at most 1,048,576.
    pub fn put_bytes(&mut self, bytes: &[u8])
        requires { length bytes.now ≤ JOB_BYTES }
        ensures { self.new ≡ record self.old { calling = record self.old.calling { bytes = bytes.now } } }
    {
        self.bytes.clear();
        append(&mut self.bytes, bytes);
    }

    /// Lays these bytes behind those laid so far. They have to be at most 1,048,576 together.
    pub fn lay_bytes(&mut self, bytes: &[u8])
        requires { length self.old.calling.bytes + length bytes.now ≤ JOB_BYTES }
        ensures { self.new ≡ record self.old { calling = record self.old.calling { bytes = self.old.calling.bytes ++ bytes.now } } }
    {
        append(&mut self.bytes, bytes);
    }

    /// The virtual blocks, at most two, that the write touches partly and whose bytes are read.
    pub fn bases(&self) -> &[u16]
        ensures { result.now ≡ self.now.calling.bases }
    {
        self.bases.as_slice()
    }

    /// The words read for these blocks: word j of the one at place k is number k * q + j.
    pub fn base_words(&self) -> &[u64]
        ensures { result.now ≡ self.now.calling.base_words }
    {
        self.base_words.as_slice()
    }

    /// Adds a partly touched block, of which no word was read. It needs fewer than two.
    pub fn add_base(&mut self, virt: u16)
        requires { length self.old.calling.bases < 2 }
        ensures { self.new ≡ record self.old { calling = record self.old.calling { bases = self.old.calling.bases ++ virt ∷ [] } } }
    {
        self.bases.push_reserved(virt);
    }

    /// Adds a word read for the blocks. It needs fewer than 2q.
    pub fn add_base_word(&mut self, word: u64)
        requires { length self.old.calling.base_words < 2 * q_of self.old.geometry }
        ensures { self.new ≡ record self.old { calling = record self.old.calling { base_words = self.old.calling.base_words ++ word ∷ [] } } }
    {
        self.base_words.push_reserved(word);
    }

    /// Drops the partly touched block at this place, and its words.
    pub fn drop_base(&mut self, place: u8)
        requires { place < length self.old.calling.bases }
        ensures { self.new ≡ record self.old {
          calling = record self.old.calling {
            bases = remove self.old.calling.bases place;
            base_words = without_block (q_of self.old.geometry) place self.old.calling.base_words;
          };
        } }
    {
        let q = self.geometry.q() as usize;
        self.bases.remove(place as usize);
        remove_words(&mut self.base_words, place as usize * q, q);
    }

    /// Drops all partly touched blocks and their words.
    pub fn clear_bases(&mut self)
        ensures { self.new ≡ record self.old { calling = record self.old.calling { bases = []; base_words = [] } } }
    {
        self.bases.clear();
        self.base_words.clear();
    }

    /// Lost entry exchanges of the present call; once at 4,294,967,295 it stays there.
    pub fn lost(&self) -> u32
        ensures { result ≡ self.now.calling.lost }
    {
        self.lost
    }

    /// Sets the count of lost entry exchanges.
    pub fn set_lost(&mut self, lost: u32)
        ensures { self.new ≡ record self.old { calling = record self.old.calling { lost = lost } } }
    {
        self.lost = lost;
    }

    /// Whether the present call's exchange of a slot put in its entry.
    pub fn won(&self) -> bool
        ensures { result ≡ self.now.calling.won }
    {
        self.won
    }

    /// Sets whether the present call put in its entry.
    pub fn set_won(&mut self, won: bool)
        ensures { self.new ≡ record self.old { calling = record self.old.calling { won = won } } }
    {
        self.won = won;
    }

    /// The position that the running sync will answer, from its fence after all its marks on.
    pub fn sync_to(&self) -> Option<u64>
        ensures { result ≡ self.now.calling.sync_to }
    {
        self.sync_to
    }

    /// Sets the position that the running sync will answer.
    pub fn set_sync_to(&mut self, sync_to: Option<u64>)
        ensures { self.new ≡ record self.old { calling = record self.old.calling { sync_to = sync_to } } }
    {
        self.sync_to = sync_to;
    }

    /// Whether `named` has exactly the blocks that the walked chain names up to the walk's place: in a collection, from where
    /// its walk began until the bits are changed for another end.
    pub fn noting(&self) -> bool
        ensures { result ≡ self.now.calling.noting }
    {
        self.noting
    }

    /// Sets whether the named blocks are noted.
    pub fn set_noting(&mut self, noting: bool)
        ensures { self.new ≡ record self.old { calling = record self.old.calling { noting = noting } } }
    {
        self.noting = noting;
    }
}
