//! A map as a slice: the place of a virtual block has the physical block that holds it, or 0 where it is unmapped.

ghost use Rattle.std.specs.Prelude.{◌≡◌, ◌≢◌, ℕ, ◌+◌, ◌-◌, ◌<◌, ◌≤◌, if◌then◌else◌, length, slice_index, MatchOption, IfOk, vec_len, count_by, not, ◌==◌};
ghost use Rattle.block_table.specs.FileMap.{is_in_range};
ghost use Rattle.block_table.specs.declared.TheConstants.{PHYSICAL_BLOCKS};

use super::LONGEST_RUN;
use std::alloc::{AllocError, Global};

pub fn unmapped_places(alloc: Global, count: usize) -> Result<Vec<u16>, AllocError>
    ensures places { IfOk result (λ places. (v : ℕ) → slice_index places.items v ≡ 0) }
    ensures len { IfOk result (λ places. vec_len places ≡ count) }
{
    let places = vec![in alloc; 0u16; count]?;
    Ok(places)
}

pub fn unmap_all(places: &mut [u16])
    ensures { (v : ℕ) → slice_index places.new v ≡ 0 }
{
    places.fill(0);
}

pub fn map_blocks(places: &mut [u16], virt: u16, block: u16, count: u16)
    requires in_file { virt + count ≤ length places.old }
    requires in_image { block + count ≤ PHYSICAL_BLOCKS }
    ensures { (v : ℕ) → slice_index places.new v ≡ (if is_in_range virt count v then block + (v - virt) else slice_index places.old v) }
{
    for k in 0..count {
        places[virt as usize + k as usize] = block + k;
    }
}

pub fn first_mapped(places: &[u16], from: usize) -> Option<usize>
    ensures { MatchOption result ((v : ℕ) → from ≤ v → slice_index places.now v ≡ 0)
        (λ at. (from ≤ at) × (at < length places.now) × (slice_index places.now at ≢ 0) × ((v : ℕ) → from ≤ v → v < at → slice_index places.now v ≡ 0)) }
{
    for v in from..places.len() {
        if places[v] != 0 {
            return Some(v);
        }
    }
    None
}

pub fn run_count(places: &[u16], virt: usize) -> usize
    requires { virt < length places.now }
    ensures some { 1 ≤ result }
    ensures cut { result ≤ LONGEST_RUN }
    ensures inside { virt + result ≤ length places.now }
    ensures held { (k : ℕ) → k < result → slice_index places.now (virt + k) ≡ slice_index places.now virt + k }
    ensures in_image { slice_index places.now virt + result ≤ PHYSICAL_BLOCKS }
    ensures longest { result < LONGEST_RUN → slice_index places.now (virt + result) ≢ slice_index places.now virt + result }
{
    let first = places[virt] as usize;
    let limit = LONGEST_RUN.min(places.len() - virt);
    for k in 1..limit {
        if places[virt + k] as usize != first + k {
            return k;
        }
    }
    limit
}

pub fn mapped_places(places: &[u16]) -> usize
    ensures { result ≡ count_by (λ place. not (place == 0)) places.now }
{
    places.iter().filter(|place| **place != 0).count()
}
