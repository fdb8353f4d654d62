//! Work that is asked from a number.

ghost use Rattle.std.specs.Prelude.{◌≤◌};

/// The work that is asked from a number.
#[derive(Clone, Copy)]
pub struct Work {
    pub number: u32,
    /// Seats, 1 to 16.
    pub seats: u8,
    /// Calls of all seats, at most 20,000.
    pub calls: u32,
    ghost some_seats: { 1 ≤ seats },
    ghost few_seats: { seats ≤ 16 },
    ghost few_calls: { calls ≤ 20000 },
}
