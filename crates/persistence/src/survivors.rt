//! What one crash leaves.

ghost use Rattle.persistence.specs.declared.survivors.Choice.TheVariants.{Drawn};
ghost use Rattle.std.specs.Prelude.{◌≡◌, ℕ, ◌+◌, ◌<◌, ◌≤◌, ◌^◌, length, slice_index, slice_index_or, All, IfOk};
ghost use Rattle.persistence.specs.Memory.{values_of, index_at};

use crate::cells::{Cells, Replaced};
use rand_core::utils::NextWord;
use rand_pcg::Pcg32;
use std::alloc::{AllocError, Global};

/// Which of the values that a crash may leave each word of the image gets.
#[derive(Clone, Copy, Debug, PartialEq, Eq)]
pub enum Choice {
    /// The value at the floor.
    Oldest,
    /// The present value.
    Newest,
    /// One drawn for each word by the generator of this seed.
    Drawn(u64),
}

/// Of each word, the number of the value at its floor and that of the present one, among all that it has held.
#[derive(Drop)]
struct Limits {
    floor: Vec<u64>,
    present: Vec<u64>,
}

impl Cells {
    ghost use Rattle.persistence.specs.Memory.{cell};
    ghost use Rattle.persistence.specs.Survivors.{Survives};
    ghost use Rattle.persistence.specs.Choices.{chosen, chosen_index};

    /// The words of the image as one crash may leave them: of each word the value that the choice takes among those at or after its
    /// floor. Only want of memory refuses it. The time is in proportion to the words and the values that they held before.
    pub fn survivors(&self, alloc: Global, choice: Choice) -> Result<Vec<u64>, AllocError>
        ensures chosen { IfOk result (λ words. words.items ≡ chosen choice self.now.memory) }
        ensures survives { IfOk result (λ words. Survives self.now.memory words.items) }
    {
        let indices = self.chosen_indices(alloc, choice)?;
        values_at(alloc, &self.words, &self.past, &indices)
    }

    /// Of each word, the number of the value that a choice takes.
    fn chosen_indices(&self, alloc: Global, choice: Choice) -> Result<Vec<u64>, AllocError>
        ensures len { IfOk result (λ indices. length indices.items ≡ length self.now.memory.now.words) }
        ensures each { IfOk result (λ indices. (w : ℕ) → w < length self.now.memory.now.words → slice_index indices.items w ≡ chosen_index choice self.now.memory w) }
    {
        let limits = count_values(alloc, &self.past, &self.floors)?;
        match choice {
            Choice::Oldest => Ok(limits.floor),
            Choice::Newest => Ok(limits.present),
            Choice::Drawn(seed) => Ok(self.drawn_indices(seed, limits)),
        }
    }

    /// Draws, word after word, one of the values from the floor on where there are several.
    fn drawn_indices(&self, seed: u64, limits: Limits) -> Vec<u64>
        requires floor_len { length limits.floor.items ≡ length self.now.memory.now.words }
        requires present_len { length limits.present.items ≡ length self.now.memory.now.words }
        requires floor { (w : ℕ) → w < length self.now.memory.now.words → slice_index limits.floor.items w ≡ (cell self.now.memory w).floor }
        requires present { (w : ℕ) → w < length self.now.memory.now.words → slice_index limits.present.items w ≡ length (cell self.now.memory w).past }
        requires few { (w : ℕ) → w < length self.now.memory.now.words → slice_index limits.present.items w + 1 < 2 ^ 64 }
        ensures len { length result.items ≡ length self.now.memory.now.words }
        ensures each { (w : ℕ) → w < length self.now.memory.now.words → slice_index result.items w ≡ chosen_index (Drawn seed) self.now.memory w }
    {
        let mut generator = Pcg32::new(seed, 0);
        let mut indices = limits.floor;
        for word in 0..self.words.len() {
            let later = limits.present[word] - indices[word];
            if later > 0 {
                let drawn = u64::from(generator.next_word());
                indices[word] += drawn % (later + 1);
            }
        }
        indices
    }
}

/// Counts the values of each word that were replaced, up to its floor and all together.
fn count_values(alloc: Global, past: &[Replaced], floors: &[u64]) -> Result<Limits, AllocError>
    requires { All (λ replaced. replaced.word < length floors.now) past.now }
    ensures floor_len { IfOk result (λ limits. length limits.floor.items ≡ length floors.now) }
    ensures present_len { IfOk result (λ limits. length limits.present.items ≡ length floors.now) }
    ensures floor { IfOk result (λ limits. (w : ℕ) → w < length floors.now → slice_index limits.floor.items w ≡ index_at past.now (slice_index floors.now w) w) }
    ensures present { IfOk result (λ limits. (w : ℕ) → w < length floors.now → slice_index limits.present.items w ≡ length (values_of past.now w)) }
    ensures few { IfOk result (λ limits. (w : ℕ) → w < length floors.now → slice_index limits.present.items w + 1 < 2 ^ 64) }
{
    let mut floor = vec![in alloc; 0u64; floors.len()]?;
    let mut present = vec![in alloc; 0u64; floors.len()]?;
    for (time, replaced) in past.iter().enumerate() {
        let word = replaced.word as usize;
        if (time as u64) < floors[word] {
            floor[word] += 1;
        }
        present[word] += 1;
    }
    Ok(Limits { floor, present })
}

/// Of each word, its value of this number: those that it held before are numbered from 0 on, and from there on it is the present one.
fn values_at(
    alloc: Global,
    words: &[u64],
    past: &[Replaced],
    indices: &[u64],
) -> Result<Vec<u64>, AllocError>
    requires known { All (λ replaced. replaced.word < length words.now) past.now }
    requires len { length indices.now ≡ length words.now }
    ensures len { IfOk result (λ values. length values.items ≡ length words.now) }
    ensures each { IfOk result (λ values. (w : ℕ) → w < length words.now → slice_index values.items w ≡ slice_index_or (values_of past.now w) (slice_index indices.now w) (slice_index words.now w)) }
{
    let mut values = Vec::from_slice(alloc, words)?;
    let mut seen = vec![in alloc; 0u64; words.len()]?;
    for replaced in past {
        let word = replaced.word as usize;
        if seen[word] == indices[word] {
            values[word] = replaced.value;
        }
        seen[word] += 1;
    }
    Ok(values)
}
