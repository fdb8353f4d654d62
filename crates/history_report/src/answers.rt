//! The text of an answer.

ghost use Rattle.std.specs.Prelude.{◌≡◌, ◌++◌, codes, decimal, OnOk};
ghost use Rattle.history_report.specs.Report.{answer_text, area_text, collect_refusal_text, collection_text, held_text, write_refusal_text};

use crate::numbers::push_named;
use itoa::Buffer;
use log_entry::text::{push_bytes, push_number};
use log_entry::{Area, CollectRefusal, Collected, Held, Reply, WriteRefusal};
use std::alloc::{AllocError, Global};

/// Adds what was answered. Only want of memory refuses it.
#[tactic(auto, unfolding(crate::specs::Report::answer_text))]
pub fn push_answer(alloc: Global, out: &mut Vec<u8>, reply: &Reply) -> Result<(), AllocError>
    ensures { OnOk result (out.new.items ≡ out.old.items ++ answer_text reply.now) }
{
    match reply {
        Reply::Wrote { length } => push_number(out, *length),
        Reply::Appended { at, length } => push_appended(out, *at, *length),
        Reply::NotWritten(why) => push_write_refusal(out, *why),
        Reply::Bytes(bytes) => push_bytes(alloc, out, bytes.bytes()),
        Reply::Size(size) => push_number(out, *size),
        Reply::Synced(position) => push_number(out, *position),
        Reply::Collected(done) => push_collection(out, *done),
        Reply::NotCollected(why) => push_collect_refusal(out, *why),
    }
}

fn push_appended(out: &mut Vec<u8>, at: u64, length: u64) -> Result<(), AllocError>
    ensures { OnOk result (out.new.items ≡ out.old.items ++ (decimal length ++ (codes " at " ++ decimal at))) }
{
    push_number(out, length)?;
    push_named(out, b" at ", at)
}

#[tactic(auto, unfolding(crate::specs::Report::write_refusal_text))]
fn push_write_refusal(out: &mut Vec<u8>, why: WriteRefusal) -> Result<(), AllocError>
    ensures { OnOk result (out.new.items ≡ out.old.items ++ write_refusal_text why) }
{
    match why {
        WriteRefusal::TooLong { blocks } => push_named(out, b"TooLong ", blocks),
        WriteRefusal::TooLarge { end } => {
            let mut buffer = Buffer::new();
            out.extend_from_slice(b"TooLarge ")?;
            out.extend_from_slice(buffer.format(end).as_bytes())
        }
        WriteRefusal::NoSpace { area } => {
            out.extend_from_slice(b"NoSpace ")?;
            out.extend_from_slice(area_name(area))
        }
        WriteRefusal::PositionLimit => out.extend_from_slice(b"PositionLimit"),
    }
}

fn area_name(area: Area) -> &'static [u8]
    ensures { result.now ≡ area_text area }
{
    match area {
        Area::Data => b"data",
        Area::Log => b"log",
        Area::Spare => b"spare",
    }
}

#[tactic(auto, unfolding(crate::specs::Report::collect_refusal_text))]
fn push_collect_refusal(out: &mut Vec<u8>, why: CollectRefusal) -> Result<(), AllocError>
    ensures { OnOk result (out.new.items ≡ out.old.items ++ collect_refusal_text why) }
{
    match why {
        CollectRefusal::Nothing => out.extend_from_slice(b"Nothing"),
        CollectRefusal::NoSpace => out.extend_from_slice(b"NoSpace spare"),
        CollectRefusal::Overtaken { generation } => push_named(
            out,
            b"Overtaken ",
            u64::from(generation),
        ),
        CollectRefusal::GenerationLimit => out.extend_from_slice(b"GenerationLimit"),
    }
}

#[tactic(auto, unfolding(crate::specs::Report::collection_text))]
fn push_collection(out: &mut Vec<u8>, done: Collected) -> Result<(), AllocError>
    ensures { OnOk result (out.new.items ≡ out.old.items ++ collection_text done) }
{
    push_named(out, b"generation ", u64::from(done.generation))?;
    push_blocks(out, done.freed, done.kept)?;
    push_held(out, done.held)
}

fn push_blocks(out: &mut Vec<u8>, freed: u32, kept: u32) -> Result<(), AllocError>
    ensures { OnOk result (out.new.items ≡ out.old.items ++ (codes " freed " ++ (decimal freed ++ (codes " kept " ++ decimal kept)))) }
{
    push_named(out, b" freed ", u64::from(freed))?;
    push_named(out, b" kept ", u64::from(kept))
}

#[tactic(auto, unfolding(crate::specs::Report::held_text))]
fn push_held(out: &mut Vec<u8>, held: Option<Held>) -> Result<(), AllocError>
    ensures { OnOk result (out.new.items ≡ out.old.items ++ held_text held) }
{
    let Some(held) = held else {
        return Ok(());
    };
    push_named(out, b" pin ", u64::from(held.seat))?;
    push_named(out, b" at ", u64::from(held.generation))
}
