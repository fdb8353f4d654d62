//! What a step on the head or on the own pin word makes of a seat.

ghost use Rattle.std.specs.Prelude.{◌≡◌, ◌≢◌, ◌<◌, length};
ghost use Rattle.pmem_words.specs.declared.TheConstants.{SEATS};
ghost use Rattle.pins.specs.Steps.{head_found, pin_stored, pin_found};

use log_entry::layouts::HEAD_GENERATION;
use pmem_words::SeatState;

/// The seat has loaded the head and found this word. The pin is valid where it is of that generation; a map of another
/// generation is then not ready, and the first log block is not known.
pub fn find_head(seat: &mut SeatState, word: u64)
    ensures { seat.new ≡ head_found seat.old word }
{
    let pin = seat.pin();
    seat.set_head(word);
    if u64::from(pin) == HEAD_GENERATION.of(word) {
        if seat.generation() != pin {
            seat.set_ready(false);
            seat.set_first_log(0);
        }
        seat.set_generation(pin);
        seat.set_valid(true);
    }
}

/// The seat has stored this generation in its pin word, 0 for none. No pin is valid then, and no loaded word is kept.
pub fn store_pin(seat: &mut SeatState, pin: u32)
    ensures { seat.new ≡ pin_stored seat.old pin }
{
    seat.set_pin(pin);
    seat.set_valid(false);
    seat.clear_kept();
}

/// The seat has loaded the pin word of seat `at`, below 16, and found this word. From the second seat on the words seen
/// have to be those of the seats before it.
pub fn see_pin(seat: &mut SeatState, at: u8, word: u64)
    requires few { at < SEATS }
    requires seen { at ≢ 0 → length seat.old.giving.pins_seen ≡ at }
    ensures { seat.new ≡ pin_found seat.old at word }
{
    if at == 0 {
        seat.clear_pins_seen();
    }
    seat.add_pin_seen(word);
}
