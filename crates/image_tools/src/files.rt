//! The file that an image stands for.

ghost use Rattle.std.specs.Prelude.{◌≡◌, ◌<◌, ◌≤◌, ◌*◌, ◌++◌, List, ℕ, length, take, IfOk, IfSome, OnOk, OnErr};
ghost use Rattle.io_ends.specs.Faults.{WriteAllFaults};
ghost use Rattle.io_ends.specs.Giving.{Gives, GivesPrefix};
ghost use Rattle.log_image.specs.Image.{total, words_in, shape_by};
ghost use Rattle.log_image.specs.Stands.{StandsBy, Stands};
ghost use Rattle.image_tools.specs.Files.{held_bytes, GivesFront};

use byteorder::{ByteOrder, LittleEndian};
use chain_reader::{block_at, read_chain};
use io_ends::{Gathered, Sink, WriteAll, write_all};
use log_entry::Geometry;
use log_image::Start;
use std::alloc::{AllocError, Global};

/// The most bytes that a block of an image has.
const LONGEST_BLOCK: usize = 4096;

/// How many bytes are gathered before they are written: some whole blocks of each size.
const PIECE: usize = 65536;

/// The bytes of the file that an image stands for, as many as its size. Only want of memory refuses them.
pub fn file_of(alloc: Global, start: &Start) -> Result<Vec<u8>, AllocError>
    ensures each { IfOk result (λ bytes. (chain file : List ℕ) (position : ℕ) → StandsBy start.now.words.items chain file position → bytes.items ≡ file) }
    ensures stands { IfOk result (λ bytes. ∥ Stands start.now.words.items bytes.items start.now.position ∥₁) }
{
    let mut gathered = Gathered::new(alloc);
    match write_file(alloc, start, &mut gathered) {
        Ok(()) => Ok(gathered.into_bytes()),
        Err(_) => Err(AllocError),
    }
}

/// Writes the file that an image stands for to `sink`, some whole blocks at a time.
///
/// It stops at the first write that fails, with `WriteFault`, or that finds no memory, with `NoMemory`; a first part of the file was
/// then appended. With `NoMemory` it also stops where the chain or the blocks of the next write find no room.
pub fn write_file<K: Sink>(alloc: Global, start: &Start, sink: &mut K) -> Result<(), WriteAll>
    ensures all { OnOk result ((chain file : List ℕ) (position : ℕ) → StandsBy start.now.words.items chain file position → Gives (K.written sink.old) (K.written sink.new) file) }
    ensures part { OnErr result ((chain file : List ℕ) (position : ℕ) → StandsBy start.now.words.items chain file position → GivesPrefix (K.written sink.old) (K.written sink.new) file) }
    ensures cause { WriteAllFaults K.exact result (K.faults sink.old) (K.faults sink.new) }
    ensures later { K.faults sink.old ≤ K.faults sink.new }
{
    let words = start.words();
    let geometry = *start.geometry();
    let Ok(read) = read_chain(alloc, words, geometry) else {
        return Err(WriteAll::NoMemory);
    };
    let size = read.table.size() as usize;
    let block_bytes = geometry.block_bytes() as usize;
    let mut piece = Vec::new(alloc);
    for virt in 0..size.div_ceil(block_bytes) {
        let count = block_bytes.min(size - virt * block_bytes);
        let block = read.table.block(virt as u16);
        match add_block(sink, &mut piece, words, geometry, block, count) {
            Ok(()) => {}
            Err(cause) => return Err(cause),
        }
    }
    match write_all(sink, &piece) {
        Ok(()) => Ok(()),
        Err(cause) => Err(cause),
    }
}

/// Adds the first bytes of a virtual block, as many as asked, that this physical block holds, or none, to a piece; and writes the
/// piece and empties it, where it is long enough.
fn add_block<K: Sink>(
    sink: &mut K,
    piece: &mut Vec<u8>,
    words: &[u64],
    geometry: Geometry,
    block: Option<u16>,
    count: usize,
) -> Result<(), WriteAll>
    requires whole { length words.now ≡ total (shape_by geometry) * words_in (shape_by geometry) }
    requires inside { IfSome block (λ number. number < total (shape_by geometry)) }
    requires few { count ≤ geometry.block_bytes }
    ensures long { length (held_bytes words.now (shape_by geometry) block) ≡ geometry.block_bytes }
    ensures all { OnOk result (GivesFront (K.written sink.old) (K.written sink.new) piece.new.items (piece.old.items ++ take count (held_bytes words.now (shape_by geometry) block))) }
    ensures part { OnErr result (GivesPrefix (K.written sink.old) (K.written sink.new) (piece.old.items ++ take count (held_bytes words.now (shape_by geometry) block))) }
    ensures cause { WriteAllFaults K.exact result (K.faults sink.old) (K.faults sink.new) }
    ensures later { K.faults sink.old ≤ K.faults sink.new }
{
    let mut longest = [0u8; LONGEST_BLOCK];
    let content = &mut longest[..geometry.block_bytes() as usize];
    lay_block(words, geometry, block, content);
    let Ok(()) = piece.extend_from_slice(&content[..count]) else {
        return Err(WriteAll::NoMemory);
    };
    if piece.len() < PIECE {
        return Ok(());
    }
    match write_all(sink, piece) {
        Ok(()) => {
            piece.clear();
            Ok(())
        }
        Err(cause) => Err(cause),
    }
}

/// Lays the bytes of a virtual block, that this physical block holds or none, over as many bytes.
fn lay_block(words: &[u64], geometry: Geometry, block: Option<u16>, content: &mut [u8])
    requires whole { length words.now ≡ total (shape_by geometry) * words_in (shape_by geometry) }
    requires inside { IfSome block (λ number. number < total (shape_by geometry)) }
    requires room { length content.old ≡ geometry.block_bytes }
    ensures { content.new ≡ held_bytes words.now (shape_by geometry) block }
{
    match block {
        Some(number) => {
            LittleEndian::write_u64_into(block_at(words, geometry, u64::from(number)), content);
        }
        None => content.fill(0),
    }
}
