//! A task begins at a seat that runs alone.

ghost use Rattle.std.specs.Prelude.{◌≡◌, []};
ghost use Rattle.log_core.specs.Works.{Begins, state_after_work, held_at_begin};

use log_entry::Held;
use pmem_words::{SeatState, Task};

/// The pin that kept blocks of earlier collections, after a task begins: a collection forgets it.
fn held_after(task: Task, held: Option<Held>) -> Option<Held>
    ensures { result ≡ held_at_begin task held }
{
    match task {
        Task::Collect => None,
        _ => held,
    }
}

/// Begins a task with no bytes: what the task before has left of its call is forgotten, so are the blocks found taken and
/// the words kept, and the seat counts as at no tail. A collection forgets the pin that kept earlier blocks.
pub fn begin_alone(seat: &mut SeatState, task: Task)
    ensures { seat.new ≡ state_after_work seat.old (Begins task []) }
{
    seat.found();
    seat.set_limbo_held(held_after(task, seat.limbo_held()));
    seat.set_at_tail(false);
    seat.clear_kept();
    seat.set_job(task);
    seat.put_bytes(&[]);
    seat.clear_bases();
    seat.set_lost(0);
    seat.set_won(false);
    seat.set_sync_to(None);
    seat.set_noting(false);
    seat.clear_found();
}
