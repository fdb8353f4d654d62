//! Laws of the definitions that the table's contracts cite.

ghost use Rattle.std.specs.Prelude.{◌≡◌, ℕ, ◌↔◌, List, Some};
ghost use Rattle.block_table.specs.Calls.{TableCall, block_after_calls, IsHeldSince};

/// Calls map a virtual block to a physical one exactly where an apply of theirs does, with no reset and no other apply of that
/// virtual block since.
pub fn law_last_apply()
    ensures { (calls : List TableCall) (v block : ℕ) → (block_after_calls calls v ≡ Some block) ↔ IsHeldSince calls v block }
{}
