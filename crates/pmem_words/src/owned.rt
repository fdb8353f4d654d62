//! The blocks that a seat owns, with their contents.

ghost use Rattle.std.specs.Prelude.{◌≡◌, ◌+◌, ◌*◌, ◌<◌, ◌≤◌, ◌++◌, ◌∷◌, [], false, IfOk, length, remove, replicate, take, slice_set};
ghost use Rattle.pmem_words.specs.ByteWords.{words_set};

use crate::keeps::KeptWord;
use crate::leaving::{
    fence_blocks, keep_blocks, keep_blocks_outside, keep_contents, keep_contents_outside,
};
use crate::lists::{append_zeros, remove_words, set_words};
use log_entry::Area;
use std::alloc::{AllocError, Global};
use std::marker::Model;

/// A block that a seat has taken and has neither committed nor given back. Its content stands beside it in the list.
#[derive(Clone, Copy, Debug, PartialEq, Eq)]
pub struct OwnedBlock {
    /// The block of the image.
    pub block: u16,
    /// The area that it is in.
    pub area: Area,
    /// Whether each of its words was stored and marked since its content last changed.
    pub filled: bool,
    /// Whether a fence came after that.
    pub fenced: bool,
}

/// A list of owned blocks with their contents, of as many words each. All room is reserved by `new`.
#[derive(Drop)]
pub struct OwnedBlocks {
    block_words: u16,
    room: u32,
    blocks: Vec<OwnedBlock>,
    contents: Vec<u64>,
}

impl Model for OwnedBlocks {
    ghost use Rattle.std.specs.Prelude.{◌≡◌, ◌≤◌, ◌*◌, vec_len, vec_capacity};
    ghost use Rattle.pmem_words.specs.Owned.{Owned};

    ghost Value = { Owned };

    ghost view = { λ o. record { block_words = o.block_words; room = o.room; blocks = o.blocks.items; contents = o.contents.items } };

    ghost invariant = { λ o.
        (o.room ≤ vec_capacity o.blocks)
        × (o.room * o.block_words ≤ vec_capacity o.contents)
        × (vec_len o.contents ≡ vec_len o.blocks * o.block_words) };
}

impl OwnedBlocks {
    ghost use Rattle.pmem_words.specs.Runs.{is_in_runs};
    ghost use Rattle.pmem_words.specs.Owned.{Owned, without_block, with_filled, with_fenced, fenced_all, is_among, owned_but, contents_but};

    /// No blocks, with room for `room` blocks of `block_words` words. Only want of memory refuses it.
    pub fn new(alloc: Global, block_words: u16, room: u32) -> Result<OwnedBlocks, AllocError>
        ensures { IfOk result (λ owned. owned ≡ record { block_words = block_words; room = room; blocks = []; contents = [] }) }
    {
        let blocks = Vec::with_capacity(alloc, room as usize)?;
        let contents = Vec::with_capacity(alloc, room as usize * block_words as usize)?;
        Ok(OwnedBlocks {
            block_words,
            room,
            blocks,
            contents,
        })
    }

    /// The blocks.
    pub fn blocks(&self) -> &[OwnedBlock]
        ensures { result.now ≡ self.now.blocks }
    {
        self.blocks.as_slice()
    }

    /// The words of the blocks: word j of the one at place k is number k * `block_words` + j.
    pub fn contents(&self) -> &[u64]
        ensures words { result.now ≡ self.now.contents }
        ensures len { length self.now.contents ≡ length self.now.blocks * self.now.block_words }
    {
        self.contents.as_slice()
    }

    /// Adds a block. Its content is 0, not filled and not fenced. It needs a free place.
    pub fn own(&mut self, block: u16, area: Area)
        requires { length self.old.blocks < self.old.room }
        ensures { self.new ≡ record self.old {
          blocks = self.old.blocks ++ record { block = block; area = area; filled = false; fenced = false } ∷ [];
          contents = self.old.contents ++ replicate self.old.block_words 0;
        } }
    {
        self.blocks.push_reserved(OwnedBlock {
            block,
            area,
            filled: false,
            fenced: false,
        });
        append_zeros(&mut self.contents, self.block_words as usize);
    }

    /// Sets word `word` of the block at this place. The block then counts as neither filled nor fenced.
    pub fn set_word(&mut self, place: u16, word: u16, value: u64)
        requires owned { place < length self.old.blocks }
        requires inside { word < self.old.block_words }
        ensures { self.new ≡ record self.old {
          blocks = with_fenced (with_filled self.old.blocks place false) place false;
          contents = slice_set self.old.contents (place * self.old.block_words + word) value;
        } }
    {
        let at = place as usize * self.block_words as usize + word as usize;
        self.contents[at] = value;
        self.unmark(place);
    }

    /// Makes the content of the block at this place what these bytes are, eight for each word, the lowest first. The block then counts
    /// as neither filled nor fenced.
    pub fn set_block(&mut self, place: u16, bytes: &[u8])
        requires owned { place < length self.old.blocks }
        requires whole { 8 * self.old.block_words ≤ length bytes.now }
        ensures { self.new ≡ record self.old {
          blocks = with_fenced (with_filled self.old.blocks place false) place false;
          contents = words_set bytes.now self.old.contents (place * self.old.block_words) self.old.block_words;
        } }
    {
        let block_words = self.block_words as usize;
        set_words(
            &mut self.contents,
            place as usize * block_words,
            block_words,
            bytes,
        );
        self.unmark(place);
    }

    /// The content of the block at this place has changed.
    fn unmark(&mut self, place: u16)
        requires { place < length self.old.blocks }
        ensures { self.new ≡ record self.old { blocks = with_fenced (with_filled self.old.blocks place false) place false } }
    {
        self.set_filled(place, false);
        self.set_fenced(place, false);
    }

    /// Sets whether the block at this place was filled since its content last changed.
    pub fn set_filled(&mut self, place: u16, filled: bool)
        requires { place < length self.old.blocks }
        ensures { self.new ≡ record self.old { blocks = with_filled self.old.blocks place filled } }
    {
        self.blocks[place as usize].filled = filled;
    }

    /// Sets whether the block at this place was fenced since it was filled.
    pub fn set_fenced(&mut self, place: u16, fenced: bool)
        requires { place < length self.old.blocks }
        ensures { self.new ≡ record self.old { blocks = with_fenced self.old.blocks place fenced } }
    {
        self.blocks[place as usize].fenced = fenced;
    }

    /// Removes the block at this place, and its content.
    pub fn disown(&mut self, place: u16)
        requires { place < length self.old.blocks }
        ensures { self.new ≡ record self.old {
          blocks = remove self.old.blocks place;
          contents = without_block self.old.block_words place self.old.contents;
        } }
    {
        let block_words = self.block_words as usize;
        self.blocks.remove(place as usize);
        remove_words(
            &mut self.contents,
            place as usize * block_words,
            block_words,
        );
    }

    /// Removes all blocks from this place on, and their contents.
    pub fn disown_from(&mut self, place: u16)
        ensures { self.new ≡ record self.old {
          blocks = take place self.old.blocks;
          contents = take (place * self.old.block_words) self.old.contents;
        } }
    {
        self.blocks.truncate(place as usize);
        self.contents
            .truncate(place as usize * self.block_words as usize);
    }

    /// Counts each filled block as fenced.
    pub fn fence_filled(&mut self)
        ensures { self.new ≡ record self.old { blocks = fenced_all self.old.blocks } }
    {
        fence_blocks(&mut self.blocks);
    }

    /// Removes the blocks whose bits are among these bits of word `word` of the bitmap, and their contents.
    pub fn disown_in_word(&mut self, word: u32, bits: u64)
        ensures { self.new ≡ record self.old {
          blocks = owned_but (is_among word bits) self.old.blocks;
          contents = contents_but self.old.block_words (is_among word bits) self.old.blocks self.old.contents;
        } }
    {
        keep_contents(
            &mut self.contents,
            self.blocks.as_slice(),
            self.block_words as usize,
            word,
            bits,
        );
        keep_blocks(&mut self.blocks, word, bits);
    }

    /// Removes the `count` blocks from `first` on, and the blocks of the runs that these words say, and their contents, in one pass.
    pub fn disown_runs(&mut self, first: u16, count: u16, runs: &[KeptWord])
        ensures { self.new ≡ record self.old {
          blocks = owned_but (is_in_runs first count runs.now) self.old.blocks;
          contents = contents_but self.old.block_words (is_in_runs first count runs.now) self.old.blocks self.old.contents;
        } }
    {
        keep_contents_outside(
            &mut self.contents,
            self.blocks.as_slice(),
            self.block_words as usize,
            first,
            count,
            runs,
        );
        keep_blocks_outside(&mut self.blocks, first, count, runs);
    }
}
