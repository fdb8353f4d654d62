//! The words of a command.

ghost use Rattle.std.specs.Prelude.{◌≡◌, ◌≢◌, ◌<◌, ◌≤◌, ◌^◌, MatchOption, None, length, ℕ, IsTrue, false};
ghost use Rattle.log_entry.specs.Geometry.{shape_refusal, HasShape};
ghost use Rattle.log_image.specs.Image.{Shape, shape_by};
ghost use Rattle.madfs_cli.specs.Commands.{IsCommand, IsMkfs, IsTry, IsReplay, IsGenerate, IsWork, Says, SaysShapeAt, SaysWorkAt};

use crate::work::Work;
use io_ends::Words;
use log_entry::Geometry;
use log_entry::text::read_number;

/// What the words of a command ask.
#[derive(Clone, Copy)]
pub enum Command {
    /// Make this, and write it.
    Make(Making),
    /// Show the file of an image.
    Cat,
}

/// What is made whole before it is written.
#[derive(Clone, Copy)]
pub enum Making {
    /// An image of this shape.
    Mkfs { shape: Geometry },
    /// The run of a trace of one seat on a just-made image of this shape.
    Try { shape: Geometry },
    /// The run of a trace of one seat on an image.
    Replay,
    /// The text of an image.
    Dump,
    /// A trace from a number.
    Generate { work: Work },
}

/// The shape of these numbers, where they are one.
fn shape_of(data_blocks: u64, log_blocks: u64, block_bytes: u64) -> Option<Geometry>
    ensures { MatchOption result
        (shape_refusal data_blocks log_blocks block_bytes ≢ None)
        (λ shape. (shape_refusal data_blocks log_blocks block_bytes ≡ None) × HasShape shape data_blocks log_blocks block_bytes) }
{
    let data_blocks = u32::try_from(data_blocks).ok()?;
    let log_blocks = u32::try_from(log_blocks).ok()?;
    let block_bytes = u32::try_from(block_bytes).ok()?;
    Geometry::new(data_blocks, log_blocks, block_bytes).ok()
}

/// The shape that the words after the first say: the blocks of the data area, those of the log area, and the bytes of a block.
fn read_shape(words: &Words) -> Option<Geometry>
    requires { 4 ≤ length words.now }
    ensures { MatchOption result ((shape : Shape) → SaysShapeAt words.now shape → ⊥) (λ shape. SaysShapeAt words.now (shape_by shape)) }
{
    let data_blocks = read_number(words.word(1).as_bytes())?;
    let log_blocks = read_number(words.word(2).as_bytes())?;
    let block_bytes = read_number(words.word(3).as_bytes())?;
    shape_of(data_blocks, log_blocks, block_bytes)
}

/// The shape that the words of `mkfs` say, where they are its.
fn read_mkfs(words: &Words) -> Option<Geometry>
    ensures { MatchOption result ((shape : Shape) → IsMkfs words.now shape → ⊥) (λ shape. IsMkfs words.now (shape_by shape)) }
{
    if words.count() != 4 || words.word(0) != "mkfs" {
        return None;
    }
    read_shape(words)
}

/// The shape that the words of `try` say, where they are its.
fn read_try(words: &Words) -> Option<Geometry>
    ensures { MatchOption result ((shape : Shape) → IsTry words.now shape → ⊥) (λ shape. IsTry words.now (shape_by shape)) }
{
    if words.count() != 5 || words.word(0) != "try" {
        return None;
    }
    if read_number(words.word(4).as_bytes())? != 1 {
        return None;
    }
    read_shape(words)
}

/// Whether the words are those of `replay`, of one seat.
fn is_replay(words: &Words) -> bool
    ensures yes { IsTrue result → IsReplay words.now }
    ensures no { (result ≡ false) → IsReplay words.now → ⊥ }
{
    if words.count() != 2 || words.word(0) != "replay" {
        return false;
    }
    let Some(seats) = read_number(words.word(1).as_bytes()) else {
        return false;
    };
    seats == 1
}

/// The work of these numbers, where it may be asked.
fn work_of(number: u64, seats: u64, calls: u64) -> Option<Work>
    ensures { MatchOption result (IsWork number seats calls → ⊥)
        (λ work. IsWork number seats calls × (work.number ≡ number) × (work.seats ≡ seats) × (work.calls ≡ calls)) }
{
    if number > 4_294_967_295 || seats == 0 || seats > 16 || calls > 20_000 {
        return None;
    }
    Some(Work {
        number: number as u32,
        seats: seats as u8,
        calls: calls as u32,
    })
}

/// The work that the words after the first say: a number, the seats, and the calls of all.
fn read_work(words: &Words) -> Option<Work>
    requires { 4 ≤ length words.now }
    ensures { MatchOption result ((number seats calls : ℕ) → SaysWorkAt words.now number seats calls → ⊥) (λ work. SaysWorkAt words.now work.number work.seats work.calls) }
{
    let number = read_number(words.word(1).as_bytes())?;
    let seats = read_number(words.word(2).as_bytes())?;
    let calls = read_number(words.word(3).as_bytes())?;
    work_of(number, seats, calls)
}

/// The work that the words of `generate` say, where they are its.
fn read_generate(words: &Words) -> Option<Work>
    ensures { MatchOption result ((number seats calls : ℕ) → IsGenerate words.now number seats calls → ⊥) (λ work. IsGenerate words.now work.number work.seats work.calls) }
{
    if words.count() != 4 || words.word(0) != "generate" {
        return None;
    }
    read_work(words)
}

/// The command that the words are. None exactly where they are none.
pub fn read_command(words: &Words) -> Option<Command>
    ensures { MatchOption result (IsCommand words.now → ⊥) (Says words.now) }
{
    if words.count() == 1 && words.word(0) == "cat" {
        return Some(Command::Cat);
    }
    if words.count() == 1 && words.word(0) == "dump" {
        return Some(Command::Make(Making::Dump));
    }
    if is_replay(words) {
        return Some(Command::Make(Making::Replay));
    }
    if let Some(shape) = read_mkfs(words) {
        return Some(Command::Make(Making::Mkfs { shape }));
    }
    if let Some(work) = read_generate(words) {
        return Some(Command::Make(Making::Generate { work }));
    }
    let shape = read_try(words)?;
    Some(Command::Make(Making::Try { shape }))
}
