//! The blocks that the present call has taken, found taken or named.

ghost use Rattle.std.specs.Prelude.{◌≡◌, ◌+◌, ◌*◌, ◌/◌, ◌<◌, ◌≤◌, ◌++◌, ◌∷◌, [], true, false, length, remove, replicate, take, slice_index, slice_set, bit_or};
ghost use Rattle.std.specs.List.{slice_range};
ghost use Rattle.pmem_words.specs.Owned.{without_block, with_filled, with_fenced, fenced_all, is_among, owned_but, contents_but};
ghost use Rattle.pmem_words.specs.Runs.{is_in_runs};
ghost use Rattle.pmem_words.specs.Noted.{noted_first, noted_more};
ghost use Rattle.pmem_words.specs.Seats.{q_of, owned_room, image_blocks, bitmap_words};
ghost use Rattle.pmem_words.specs.ByteWords.{words_set};
ghost use Rattle.asks.specs.Asks.{without_bits};

use super::SeatState;
use crate::owned::OwnedBlock;
use log_entry::Area;

impl SeatState {
    /// The blocks taken and neither given back nor committed.
    pub fn owned(&self) -> &[OwnedBlock]
        ensures { result.now ≡ self.now.blocks.owned }
    {
        self.owned.blocks()
    }

    /// The words of the owned blocks: word j of the one at place k is number k * q + j.
    pub fn contents(&self) -> &[u64]
        ensures words { result.now ≡ self.now.blocks.contents }
        ensures len { length self.now.blocks.contents ≡ length self.now.blocks.owned * q_of self.now.geometry }
    {
        self.owned.contents()
    }

    /// Adds a block that was taken. Its content is 0, not filled and not fenced. It needs a free place: there are those of
    /// the longest write, and those of a collection.
    pub fn own(&mut self, block: u16, area: Area)
        requires { length self.old.blocks.owned < owned_room self.old.geometry }
        ensures { self.new ≡ record self.old {
          blocks = record self.old.blocks {
            owned = self.old.blocks.owned ++ record { block = block; area = area; filled = false; fenced = false } ∷ [];
            contents = self.old.blocks.contents ++ replicate (q_of self.old.geometry) 0;
          };
        } }
    {
        self.owned.own(block, area);
    }

    /// Sets one word of an owned block's content: word `word`, below q, of the block at place `place` of their list. The
    /// block then counts as neither filled nor fenced.
    pub fn set_word(&mut self, place: u16, word: u16, value: u64)
        requires owned { place < length self.old.blocks.owned }
        requires inside { word < q_of self.old.geometry }
        ensures { self.new ≡ record self.old {
          blocks = record self.old.blocks {
            owned = with_fenced (with_filled self.old.blocks.owned place false) place false;
            contents = slice_set self.old.blocks.contents (place * q_of self.old.geometry + word) value;
          };
        } }
    {
        self.owned.set_word(place, word, value);
    }

    /// Makes the content of the owned block at place `place` of their list what the call's bytes from byte `from` on are, eight for each
    /// word, the lowest first. The block then counts as neither filled nor fenced.
    pub fn set_block(&mut self, place: u16, from: usize)
        requires owned { place < length self.old.blocks.owned }
        requires whole { from + 8 * q_of self.old.geometry ≤ length self.old.calling.bytes }
        ensures { self.new ≡ record self.old {
          blocks = record self.old.blocks {
            owned = with_fenced (with_filled self.old.blocks.owned place false) place false;
            contents = words_set (slice_range self.old.calling.bytes from (from + 8 * q_of self.old.geometry)) self.old.blocks.contents (place * q_of self.old.geometry) (q_of self.old.geometry);
          };
        } }
    {
        let past = from + 8 * self.geometry.q() as usize;
        self.owned.set_block(place, &self.bytes[from..past]);
    }

    /// Sets whether the block at this place was filled since its content last changed.
    pub fn set_filled(&mut self, place: u16, filled: bool)
        requires { place < length self.old.blocks.owned }
        ensures { self.new ≡ record self.old { blocks = record self.old.blocks { owned = with_filled self.old.blocks.owned place filled } } }
    {
        self.owned.set_filled(place, filled);
    }

    /// Sets whether the block at this place was fenced since it was filled.
    pub fn set_fenced(&mut self, place: u16, fenced: bool)
        requires { place < length self.old.blocks.owned }
        ensures { self.new ≡ record self.old { blocks = record self.old.blocks { owned = with_fenced self.old.blocks.owned place fenced } } }
    {
        self.owned.set_fenced(place, fenced);
    }

    /// Counts each filled block as fenced: a fence came.
    pub fn fence_filled(&mut self)
        ensures { self.new ≡ record self.old { blocks = record self.old.blocks { owned = fenced_all self.old.blocks.owned } } }
    {
        self.owned.fence_filled();
    }

    /// Removes the blocks whose bits are among these bits of word `word` of the bitmap, and their contents: they were given back.
    pub fn disown_in_word(&mut self, word: u32, bits: u64)
        ensures { self.new ≡ record self.old {
          blocks = record self.old.blocks {
            owned = owned_but (is_among word bits) self.old.blocks.owned;
            contents = contents_but (q_of self.old.geometry) (is_among word bits) self.old.blocks.owned self.old.blocks.contents;
          };
        } }
    {
        self.owned.disown_in_word(word, bits);
    }

    /// Removes the `count` blocks from `first` on, and their contents: they were committed.
    pub fn disown_run(&mut self, first: u16, count: u16)
        ensures { self.new ≡ record self.old {
          blocks = record self.old.blocks {
            owned = owned_but (is_in_runs first count []) self.old.blocks.owned;
            contents = contents_but (q_of self.old.geometry) (is_in_runs first count []) self.old.blocks.owned self.old.blocks.contents;
          };
        } }
    {
        self.owned.disown_runs(first, count, &[]);
    }

    /// Removes this block, and the blocks of the runs that the kept words from place `from` up to `past` say, and their contents:
    /// they were committed.
    pub fn disown_kept_runs(&mut self, block: u16, from: usize, past: usize)
        requires order { from ≤ past }
        requires inside { past ≤ length self.old.walk.kept }
        ensures { self.new ≡ record self.old {
          blocks = record self.old.blocks {
            owned = owned_but (is_in_runs block 1 (slice_range self.old.walk.kept from past)) self.old.blocks.owned;
            contents = contents_but (q_of self.old.geometry) (is_in_runs block 1 (slice_range self.old.walk.kept from past)) self.old.blocks.owned self.old.blocks.contents;
          };
        } }
    {
        self.owned.disown_runs(block, 1, &self.kept[from..past]);
    }

    /// Removes the block at this place, and its content: it was committed or given back.
    pub fn disown(&mut self, place: u16)
        requires { place < length self.old.blocks.owned }
        ensures { self.new ≡ record self.old {
          blocks = record self.old.blocks {
            owned = remove self.old.blocks.owned place;
            contents = without_block (q_of self.old.geometry) place self.old.blocks.contents;
          };
        } }
    {
        self.owned.disown(place);
    }

    /// Removes all blocks from this place on, and their contents.
    pub fn disown_from(&mut self, place: u16)
        ensures { self.new ≡ record self.old {
          blocks = record self.old.blocks {
            owned = take place self.old.blocks.owned;
            contents = take (place * q_of self.old.geometry) self.old.blocks.contents;
          };
        } }
    {
        self.owned.disown_from(place);
    }

    /// The bits of the blocks that the present call's passes over the bitmap found taken: bit b of word m is block 64 * m + b.
    pub fn found(&self) -> &[u64]
        ensures words { result.now ≡ self.now.blocks.found }
        ensures len { length self.now.blocks.found ≡ bitmap_words self.now.geometry }
    {
        self.found.as_slice()
    }

    /// Adds these bits to word `word` of `found`.
    pub fn add_found(&mut self, word: u32, bits: u64)
        requires { word < length self.old.blocks.found }
        ensures { self.new ≡ record self.old { blocks = record self.old.blocks { found = slice_set self.old.blocks.found word (bit_or (slice_index self.old.blocks.found word) bits) } } }
    {
        self.found[word as usize] |= bits;
    }

    /// Takes these bits out of word `word` of `found`: the seat gives the blocks back.
    pub fn remove_found(&mut self, word: u32, bits: u64)
        requires { word < length self.old.blocks.found }
        ensures { self.new ≡ record self.old { blocks = record self.old.blocks { found = slice_set self.old.blocks.found word (without_bits (slice_index self.old.blocks.found word) bits) } } }
    {
        self.found[word as usize] &= !bits;
    }

    /// Takes every bit out of `found`.
    pub fn clear_found(&mut self)
        ensures len { length self.new.blocks.found ≡ bitmap_words self.new.geometry }
        ensures words { self.new ≡ record self.old { blocks = record self.old.blocks { found = replicate (bitmap_words self.old.geometry) 0 } } }
    {
        self.found.fill(0);
    }

    /// The bits of the blocks that the walked chain names, for a collection: bit b of word m is block 64 * m + b.
    pub fn named(&self) -> &[u64]
        ensures words { result.now ≡ self.now.blocks.named }
        ensures len { length self.now.blocks.named ≡ bitmap_words self.now.geometry }
    {
        self.named.as_slice()
    }

    /// Adds these bits to word `word` of `named`.
    pub fn add_named(&mut self, word: u32, bits: u64)
        requires { word < length self.old.blocks.named }
        ensures { self.new ≡ record self.old { blocks = record self.old.blocks { named = slice_set self.old.blocks.named word (bit_or (slice_index self.old.blocks.named word) bits) } } }
    {
        self.named[word as usize] |= bits;
    }

    /// Takes every bit out of `named`.
    pub fn clear_named(&mut self)
        ensures { self.new ≡ record self.old { blocks = record self.old.blocks { named = replicate (bitmap_words self.old.geometry) 0 } } }
    {
        self.named.fill(0);
    }

    /// Takes these bits out of word `word` of `named`.
    pub fn remove_named(&mut self, word: u32, bits: u64)
        requires { word < length self.old.blocks.named }
        ensures { self.new ≡ record self.old { blocks = record self.old.blocks { named = slice_set self.old.blocks.named word (without_bits (slice_index self.old.blocks.named word) bits) } } }
    {
        self.named[word as usize] &= !bits;
    }

    /// Notes this block as the first one that the chain names: its bit alone is set in `named`. It has to be one of the image.
    pub fn note_first(&mut self, block: u16)
        requires { block < image_blocks self.old.geometry }
        ensures { self.new ≡ record self.old { blocks = record self.old.blocks { named = noted_first true self.old.blocks.named block } } }
    {
        self.named.fill(0);
        self.named[block as usize / 64] |= 1 << (block % 64);
    }

    /// Notes one block more that the chain names, where `noting` says so. It has to be one of the image.
    pub fn note(&mut self, block: u16)
        requires { block < image_blocks self.old.geometry }
        ensures { self.new ≡ record self.old { blocks = record self.old.blocks { named = noted_more self.old.calling.noting self.old.blocks.named (block ∷ []) } } }
    {
        if self.noting {
            self.named[block as usize / 64] |= 1 << (block % 64);
        }
    }
}
