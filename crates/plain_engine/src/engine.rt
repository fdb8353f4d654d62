//! An engine: an image, and what one caller keeps of it between calls.

ghost use Rattle.std.specs.Prelude.{◌≡◌, ◌≢◌, ℕ, ◌+◌, ◌-◌, ◌*◌, ◌^◌, ◌<◌, ◌≤◌, List, length, slice_index, IsTrue, Bool, true, false, IfOk, OnErr};
ghost use Rattle.block_table.specs.FileMap.{block_at};
ghost use Rattle.block_table.specs.declared.TheConstants.{VIRTUAL_BLOCKS};
ghost use Rattle.log_entry.specs.Shape.{longest_of, limit_of};
ghost use Rattle.log_entry.specs.Legal.{touched_blocks, write_refusal};
ghost use Rattle.log_entry.specs.ByteFile.{read};
ghost use Rattle.log_image.specs.Image.{words_in, total, block_content, shape_by};
ghost use Rattle.plain_engine.specs.Bytes.{byte_of, laid_byte, present_byte};
ghost use Rattle.plain_engine.specs.Clear.{AllClear};
ghost use Rattle.plain_engine.specs.Running.{RunsOnSome, AllTakenBefore};

use crate::bitmap::{first_clear, least_run, mark, mark_run};
use crate::fresh::store_fresh;
use crate::stores::store_run;
use block_table::{MapRun, Table};
use byteorder::{ByteOrder, LittleEndian};
use chain_reader::{read_chain, take_in};
use log_entry::{Area, Blob, CollectRefusal, Entry, Geometry, Op, Reply, WriteRefusal, encode};
use log_image::Start;
use std::alloc::{AllocError, Global};

/// The greatest position that a file may have: so many writes since it was made.
const LAST_POSITION: u64 = (1 << 40) - 1;

/// An image that one caller runs on: its words, the bitmap of its taken blocks, the table of its map and size, and where its
/// chain ends.
#[derive(Drop)]
pub struct PlainEngine {
    geometry: Geometry,
    words: Vec<u64>,
    taken: Vec<u64>,
    table: Table,
    position: u64,
    tail_block: u16,
    tail_slot: u16,
    first_clear: u16,
    pub ghost kept: { ∥ RunsOnSome (shape_by geometry) words.items taken.items table position tail_block tail_slot first_clear ∥₁ },
}

impl PlainEngine {
    ghost use Rattle.log_image.specs.Stands.{StandsBy};
    ghost use Rattle.image_steps.specs.Steps.{IsEntryOf, fits_log};
    ghost use Rattle.plain_engine.specs.Serving.{Serves};
    ghost use Rattle.plain_engine.specs.Names.{TakesRun};
    ghost use Rattle.plain_engine.specs.Engine.{shape_in, Running, KeepsFirstBlock, SameBesideWords, SameNames, HasSlot, LacksSlot, SameBesideTail, run_word, Writes};

    /// The words of the image.
    pub fn into_words(self) -> Vec<u64>
        ensures { result ≡ self.words }
    {
        self.words
    }

    /// The engine that runs on a start. Only want of memory refuses it.
    pub fn new(alloc: Global, start: Start) -> Result<PlainEngine, AllocError>
        ensures words { IfOk result (λ engine. engine.words ≡ start.words) }
        ensures geometry { IfOk result (λ engine. engine.geometry ≡ start.geometry) }
        ensures position { IfOk result (λ engine. engine.position ≡ start.position) }
        ensures runs { IfOk result (λ engine. (chain file : List ℕ) (position : ℕ) → StandsBy start.words.items chain file position → (position ≡ engine.position) × Running engine chain file) }
    {
        let geometry = *start.geometry();
        let position = start.position();
        let read = read_chain(alloc, start.words(), geometry)?;
        let (words, taken) = start.into_parts();
        Ok(PlainEngine {
            geometry,
            words,
            taken,
            table: read.table,
            position,
            tail_block: read.tail_block,
            tail_slot: read.tail_slot,
            first_clear: 1,
        })
    }

    /// The position of the file.
    pub fn position(&self) -> u64
        ensures { result ≡ self.now.position }
    {
        self.position
    }

    /// Bytes of the file.
    pub fn size(&self) -> u64
        ensures { result ≡ self.now.table.size }
    {
        self.table.size()
    }

    /// The word of the file's eight bytes from place `8 * index` on, with 0 past its end.
    fn word(&self, index: u64) -> u64
        ensures { (chain file : List ℕ) → Running self.now chain file → (k : ℕ) → k < 8 → byte_of result k ≡ slice_index file (8 * index + k) }
    {
        let count = u64::from(self.geometry.q());
        let virt = index / count;
        if virt >= 65536 {
            return 0;
        }
        match self.table.block(virt as u16) {
            Some(block) => self.words[block as usize * count as usize + (index % count) as usize],
            None => 0,
        }
    }

    /// The bytes of the file from an offset on, at most so many and none past the end.
    fn read(&self, alloc: Global, offset: u64, count: u64) -> Result<Vec<u8>, AllocError>
        ensures { IfOk result (λ bytes. (chain file : List ℕ) → Running self.now chain file → bytes.items ≡ read file offset count) }
    {
        let size = self.table.size();
        let start = offset.min(size);
        let count = count.min(size - start);
        let mut bytes = Vec::with_capacity(alloc, count as usize)?;
        let end = start + count;
        let mut place = start;
        while place < end {
            let from = place % 8;
            let upto = (8 - from).min(end - place);
            let mut lowest_first = [0u8; 8];
            LittleEndian::write_u64(&mut lowest_first, self.word(place / 8));
            bytes.extend_from_slice(&lowest_first[from as usize..(from + upto) as usize])?;
            place += upto;
        }
        Ok(bytes)
    }

    /// Stores the new content of clear data blocks, which is the present content of the run's virtual blocks with bytes laid over it.
    fn store(&mut self, run: MapRun, offset: u64, bytes: &[u8])
        requires in_file { run.virt + run.count ≤ VIRTUAL_BLOCKS }
        requires first { 1 ≤ run.block }
        requires last { run.block + run.count ≤ 1 + self.old.geometry.data_blocks }
        requires few { offset + length bytes.now < 2 ^ 63 }
        requires clear { AllClear self.old.taken.items run.block (run.block + run.count) }
        ensures runs { (chain file : List ℕ) → Running self.old chain file → Running self.new chain file }
        ensures names { (chain file : List ℕ) → Running self.old chain file → SameNames self.old self.new chain }
        ensures stored { (k at : ℕ) → k < run.count → at < self.old.geometry.block_bytes → slice_index (block_content self.new.words.items (shape_in self.old) (run.block + k)) at
            ≡ laid_byte offset bytes.now ((run.virt + k) * self.old.geometry.block_bytes + at) (present_byte self.old.words.items (shape_in self.old) (block_at self.old.table (run.virt + k)) at) }
        ensures same { SameBesideWords self.old self.new }
    {
        store_run(
            &mut self.words,
            &self.table,
            self.geometry,
            run,
            offset,
            bytes,
        );
    }

    /// Makes a slot for the next entry: where the tail is a block's end, the least clear block of the log area is linked to it.
    /// False where there is none.
    fn make_slot(&mut self) -> bool
        ensures slot { IsTrue result → (chain file : List ℕ) → Running self.old chain file → HasSlot self.old self.new chain file }
        ensures none { (result ≡ false) → (chain file : List ℕ) → Running self.old chain file → LacksSlot self.old self.new chain file }
        ensures opens { IsTrue result → self.new.tail_slot ≢ words_in (shape_in self.old) }
        ensures same { SameBesideTail self.old self.new }
    {
        let count = self.geometry.q() as usize;
        if self.tail_slot as usize != count {
            return true;
        }
        let first = self.geometry.first(Area::Log) as usize;
        let end = self.geometry.first(Area::Spare) as usize;
        let Some(next) = first_clear(&self.taken, first, end) else {
            return false;
        };
        store_fresh(&mut self.words, next * count, count, self.position);
        self.words[self.tail_block as usize * count] = next as u64;
        mark(&mut self.taken, next);
        self.tail_block = next as u16;
        self.tail_slot = 3;
        true
    }

    /// Puts the entry of a run of stored blocks into the tail's slot. Its last block has `leftover` bytes past the end of the write.
    fn commit(&mut self, run: MapRun, leftover: u16)
        requires slot { self.old.tail_slot ≢ words_in (shape_in self.old) }
        requires room { self.old.position + 1 < 2 ^ 40 }
        requires some { 1 ≤ run.count }
        requires few { run.count ≤ 256 }
        requires left { leftover < 4096 }
        requires first { 1 ≤ run.block }
        requires last { run.block + run.count ≤ 1 + self.old.geometry.data_blocks }
        requires fitting { fits_log (shape_in self.old) (run_word run leftover) ≡ true }
        requires least { (chain file : List ℕ) → Running self.old chain file → AllTakenBefore self.old.words.items (shape_in self.old) chain run.block }
        requires entry { (chain file : List ℕ) → Running self.old chain file → (new_file : List ℕ) × IsEntryOf self.old.words.items (shape_in self.old) chain file new_file (run_word run leftover) }
        ensures runs { (chain file new_file : List ℕ) → Running self.old chain file → IsEntryOf self.old.words.items (shape_in self.old) chain file new_file (run_word run leftover) →
            Running self.new chain new_file }
        ensures names { (chain file : List ℕ) → Running self.old chain file → TakesRun (shape_in self.old) self.old.words.items chain self.new.words.items run.block run.count }
        ensures geometry { self.new.geometry ≡ self.old.geometry }
        ensures position { self.new.position ≡ self.old.position + 1 }
        ensures first_block { KeepsFirstBlock (shape_in self.old) self.old.words.items self.new.words.items }
    {
        let word = encode(&Entry::Direct {
            virt: run.virt,
            block: run.block,
            count: run.count,
            leftover,
        });
        let count = self.geometry.q() as usize;
        take_in(&mut self.table, &self.words, self.geometry, word);
        self.words[self.tail_block as usize * count + self.tail_slot as usize] = word;
        mark_run(&mut self.taken, run.block as usize, run.count as usize);
        self.position += 1;
        self.tail_slot += 1;
        self.first_clear = run.block + run.count;
    }

    /// Writes at least one byte at an offset; the bytes touch no more blocks than one write may and end within the limit of the file.
    /// The area in which there is no space, if it is not written.
    fn write(&mut self, offset: u64, bytes: &[u8]) -> Option<Area>
        requires some { 0 < length bytes.now }
        requires few { touched_blocks self.old.geometry.block_bytes offset (length bytes.now) ≤ longest_of self.old.geometry.block_bytes }
        requires fits { offset + length bytes.now ≤ limit_of self.old.geometry.block_bytes }
        requires room { self.old.position + 1 < 2 ^ 40 }
        ensures { (chain file : List ℕ) → Running self.old chain file → Writes self.old self.new chain file offset bytes.now result }
    {
        let block_bytes = self.geometry.block_bytes();
        let count = touched(block_bytes, offset, bytes.len());
        let virt = offset / u64::from(block_bytes);
        let end = self.geometry.first(Area::Log) as usize;
        let Some(block) = least_run(&self.taken, self.first_clear as usize, end, count as usize)
        else {
            return Some(Area::Data);
        };
        let run = MapRun {
            virt: virt as u16,
            block: block as u16,
            count: count as u16,
        };
        self.store(run, offset, bytes);
        if !self.make_slot() {
            return Some(Area::Log);
        }
        let end = (virt + count) * u64::from(block_bytes);
        self.commit(run, (end - (offset + bytes.len() as u64)) as u16);
        None
    }

    /// Why a write of at least one byte that touches so many blocks and ends there is refused whatever is free, if it is.
    fn refusal(&self, blocks: u64, end: u128) -> Option<WriteRefusal>
        ensures { result ≡ write_refusal self.now.geometry.block_bytes self.now.position blocks end }
    {
        if blocks > u64::from(self.geometry.longest()) {
            Some(WriteRefusal::TooLong { blocks })
        } else if end > u128::from(self.geometry.limit()) {
            Some(WriteRefusal::TooLarge { end })
        } else if self.position == LAST_POSITION {
            Some(WriteRefusal::PositionLimit)
        } else {
            None
        }
    }

    fn pwrite(&mut self, offset: u64, bytes: &Blob) -> Reply
        ensures { (chain file : List ℕ) → Running self.old chain file → Serves self.old self.new chain file (Op.Pwrite offset bytes.now) result }
    {
        let bytes = bytes.bytes();
        let length = bytes.len() as u64;
        if bytes.is_empty() {
            return Reply::Wrote { length };
        }
        let blocks = touched(self.geometry.block_bytes(), offset, bytes.len());
        if let Some(why) = self.refusal(blocks, u128::from(offset) + u128::from(length)) {
            return Reply::NotWritten(why);
        }
        match self.write(offset, bytes) {
            None => Reply::Wrote { length },
            Some(area) => Reply::NotWritten(WriteRefusal::NoSpace { area }),
        }
    }

    fn append(&mut self, bytes: &Blob) -> Reply
        ensures { (chain file : List ℕ) → Running self.old chain file → Serves self.old self.new chain file (Op.Append bytes.now) result }
    {
        let bytes = bytes.bytes();
        let length = bytes.len() as u64;
        let at = self.size();
        if bytes.is_empty() {
            return Reply::Appended { at, length };
        }
        let block = u64::from(self.geometry.block_bytes());
        let blocks = (length + 2 * block - 2) / block;
        if let Some(why) = self.refusal(blocks, u128::from(at) + u128::from(length)) {
            return Reply::NotWritten(why);
        }
        match self.write(at, bytes) {
            None => Reply::Appended { at, length },
            Some(area) => Reply::NotWritten(WriteRefusal::NoSpace { area }),
        }
    }

    /// The reply to a call. Only want of memory refuses it, and leaves the engine as it was. There is no collector yet: a collection
    /// finds nothing to give back.
    pub fn answer(&mut self, alloc: Global, op: &Op) -> Result<Reply, AllocError>
        ensures serves { IfOk result (λ reply. (chain file : List ℕ) → Running self.old chain file → Serves self.old self.new chain file op.now reply) }
        ensures err { OnErr result (self.new ≡ self.old) }
    {
        match op {
            Op::Pwrite { offset, bytes } => Ok(self.pwrite(*offset, bytes)),
            Op::Append { bytes } => Ok(self.append(bytes)),
            Op::Pread { offset, length } => {
                let bytes = self.read(alloc, *offset, *length)?;
                Ok(Reply::Bytes(Blob::new(bytes)))
            }
            Op::Size => Ok(Reply::Size(self.size())),
            Op::Sync => Ok(Reply::Synced(self.position)),
            Op::Collect => Ok(Reply::NotCollected(CollectRefusal::Nothing)),
        }
    }
}

/// How many blocks a range of at least one byte touches.
fn touched(block_bytes: u32, offset: u64, count: usize) -> u64
    requires block { 0 < block_bytes }
    requires some { 0 < count }
    requires few { count < 2 ^ 63 }
    ensures { result ≡ touched_blocks block_bytes offset count }
{
    let block = u64::from(block_bytes);
    (offset % block + (count as u64 - 1)) / block + 1
}
