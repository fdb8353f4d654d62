//! What a seat keeps within a call and between calls.

ghost use Rattle.std.specs.Prelude.{◌≡◌, ℕ, ◌+◌, ◌*◌, ◌<◌, ◌≤◌, IfOk, length};

mod blocks;
mod calling;
mod giving;
mod hold;
mod room;
mod walk;

use crate::keeps::{KeptWord, Task};
use crate::owned::OwnedBlocks;
use crate::{BLOCKS, JOB_BYTES, SEATS};
use block_table::Table;
use log_entry::{Geometry, Held};
use std::alloc::{AllocError, Global};
use std::marker::Model;

/// What a seat keeps within a call and between calls: about 4 MB at most. All room is reserved by `new`; no other call of
/// this type takes memory, and the machines change a seat through these calls alone.
#[derive(Drop)]
pub struct SeatState {
    number: u8,
    seats: u8,
    geometry: Geometry,

    head: u64,
    pin: u32,
    generation: u32,
    valid: bool,

    position: u64,
    table: Table,
    tail_block: u16,
    tail_slot: u16,
    tail_base: u64,
    snapshot_base: u64,
    first_log: u16,
    at_tail: bool,
    ready: bool,
    reading: bool,
    reading_generation: u32,
    reading_block: u16,
    reading_slot: u16,
    reading_place: u16,
    kept: Vec<KeptWord>,

    job: Task,
    bytes: Vec<u8>,
    bases: Vec<u16>,
    base_words: Vec<u64>,
    lost: u32,
    won: bool,
    sync_to: Option<u64>,
    noting: bool,

    owned: OwnedBlocks,
    found: Vec<u64>,
    named: Vec<u64>,

    replaced: Vec<u16>,
    replaced_generation: u32,
    limbo: Vec<u16>,
    limbo_generation: u32,
    pins_seen: Vec<u64>,
    limbo_held: Option<Held>,
    head_fenced: bool,
}

impl Model for SeatState {
    ghost use Rattle.std.specs.Prelude.{◌≡◌, ◌≤◌, ◌*◌, vec_len, vec_capacity};
    ghost use Rattle.pmem_words.specs.Maps.{map_of};
    ghost use Rattle.pmem_words.specs.Seats.{Seat, q_of, kept_room, owned_room, bitmap_words};
    ghost use Rattle.pmem_words.specs.declared.TheConstants.{BLOCKS, JOB_BYTES, SEATS};

    ghost Value = { Seat };

    ghost view = { λ s. record {
      number = s.number;
      seats = s.seats;
      geometry = s.geometry;
      hold = record { head = s.head; pin = s.pin; generation = s.generation; valid = s.valid };
      walk = record {
        position = s.position;
        map = map_of s.table;
        size = s.table.size;
        tail_block = s.tail_block;
        tail_slot = s.tail_slot;
        tail_base = s.tail_base;
        snapshot_base = s.snapshot_base;
        first_log = s.first_log;
        at_tail = s.at_tail;
        ready = s.ready;
        reading = s.reading;
        reading_generation = s.reading_generation;
        reading_block = s.reading_block;
        reading_slot = s.reading_slot;
        reading_place = s.reading_place;
        kept = s.kept.items;
      };
      calling = record { job = s.job; bytes = s.bytes.items; bases = s.bases.items; base_words = s.base_words.items; lost = s.lost; won = s.won; sync_to = s.sync_to; noting = s.noting };
      blocks = record { owned = s.owned.blocks; contents = s.owned.contents; found = s.found.items; named = s.named.items };
      giving = record {
        replaced = s.replaced.items;
        replaced_generation = s.replaced_generation;
        limbo = s.limbo.items;
        limbo_generation = s.limbo_generation;
        pins_seen = s.pins_seen.items;
        limbo_held = s.limbo_held;
        head_fenced = s.head_fenced;
      };
    } };

    ghost invariant = { λ s.
        (s.table.block_bytes ≡ s.geometry.block_bytes)
        × (kept_room s.geometry ≤ vec_capacity s.kept)
        × (JOB_BYTES ≤ vec_capacity s.bytes)
        × (2 ≤ vec_capacity s.bases)
        × (2 * q_of s.geometry ≤ vec_capacity s.base_words)
        × (s.owned.block_words ≡ q_of s.geometry)
        × (s.owned.room ≡ owned_room s.geometry)
        × (vec_len s.found ≡ bitmap_words s.geometry)
        × (vec_len s.named ≡ bitmap_words s.geometry)
        × (BLOCKS ≤ vec_capacity s.replaced)
        × (BLOCKS ≤ vec_capacity s.limbo)
        × (SEATS ≤ vec_capacity s.pins_seen) };
}

impl SeatState {
    ghost use Rattle.pmem_words.specs.Seats.{new_seat};

    /// A seat that has made no step: the `number`th of `seats` on an image of this geometry, at this position. Only want of
    /// memory refuses it.
    pub fn new(
        alloc: Global,
        geometry: Geometry,
        number: u8,
        seats: u8,
        position: u64,
    ) -> Result<SeatState, AllocError>
        ensures { IfOk result (λ seat. seat ≡ new_seat geometry number seats position) }
    {
        let q = geometry.q() as usize;
        let owned_room = room::owned_room(&geometry);
        let bitmap_words = room::bitmap_words(&geometry);
        let table = Table::new(alloc, geometry.block_bytes)?;
        let kept = Vec::with_capacity(alloc, 2 * q)?;
        let bytes = Vec::with_capacity(alloc, JOB_BYTES)?;
        let bases = Vec::with_capacity(alloc, 2)?;
        let base_words = Vec::with_capacity(alloc, 2 * q)?;
        let owned = OwnedBlocks::new(alloc, geometry.q() as u16, owned_room)?;
        let found = vec![in alloc; 0u64; bitmap_words]?;
        let named = vec![in alloc; 0u64; bitmap_words]?;
        let replaced = Vec::with_capacity(alloc, BLOCKS)?;
        let limbo = Vec::with_capacity(alloc, BLOCKS)?;
        let pins_seen = Vec::with_capacity(alloc, SEATS)?;
        Ok(SeatState {
            number,
            seats,
            geometry,
            head: 0,
            pin: 0,
            generation: 0,
            valid: false,
            position,
            table,
            tail_block: 0,
            tail_slot: 0,
            tail_base: 0,
            snapshot_base: 0,
            first_log: 0,
            at_tail: false,
            ready: false,
            reading: false,
            reading_generation: 0,
            reading_block: 0,
            reading_slot: 0,
            reading_place: 0,
            kept,
            job: Task::Idle,
            bytes,
            bases,
            base_words,
            lost: 0,
            won: false,
            sync_to: None,
            noting: false,
            owned,
            found,
            named,
            replaced,
            replaced_generation: 0,
            limbo,
            limbo_generation: 0,
            pins_seen,
            limbo_held: None,
            head_fenced: true,
        })
    }

    /// The seat's number, from 0.
    pub fn number(&self) -> u8
        ensures { result ≡ self.now.number }
    {
        self.number
    }

    /// How many seats there are.
    pub fn seats(&self) -> u8
        ensures { result ≡ self.now.seats }
    {
        self.seats
    }

    /// The shape of the image.
    pub fn geometry(&self) -> &Geometry
        ensures { result.now ≡ self.now.geometry }
    {
        &self.geometry
    }
}
