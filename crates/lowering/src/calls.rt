// Calls: a call's number and the places of its arguments' starts, and an argument's segment.
ghost use Rattle.std.specs.Prelude.{◌≡◌, ◌+◌, ltb, set, cond};
ghost use Rattle.workspace.specs.Layout.{ARGUMENTS, ARGUMENTS_ROOM};
ghost use Rattle.builder.specs.Done.{Did};
ghost use Rattle.lowering.specs.Done.{Gave};
ghost use Rattle.lowering.specs.Parts.{call_begun, argument_closed};

use crate::parts::instr;
use crate::{Builder, regions};
use code::segment::Ends;
use payload::QueryRef;
use program::opcodes::Opcode;
use program::{CallIdx, PostIdx};
use workspace::layout;
use workspace::words::put_word;

// A call takes its number, and places for its arguments' starts.
#[tactic(auto, unfolding(crate::specs::Parts::call_begun))]
pub(crate) fn begin_call(b: &mut Builder<'_>, q: QueryRef, count: u16) -> CallIdx
    ensures { Gave b.old b.new result.0 (call_begun q.index q.impl_idx count) }
{
    let first = b.state.listed.arguments;
    let entry = [
        u32::from(q.index),
        u32::from(q.impl_idx),
        u32::from(count),
        u32::from(first),
    ];
    let k = regions::CALLS.append(b.words, &mut b.state.listed.calls, &entry);
    b.state.listed.arguments = first.saturating_add(count);
    CallIdx(k)
}

fn put_start(ws: &mut [u32], slot: u16, start: u16)
    ensures { ws.new ≡ cond (ltb slot ARGUMENTS_ROOM) (set ws.old (ARGUMENTS + slot) start) ws.old }
{
    if slot < layout::ARGUMENTS_ROOM {
        put_word(ws, layout::ARGUMENTS + usize::from(slot), u32::from(start));
    }
}

// The segment of an argument is finished, and the caller's is open again.
#[tactic(auto, unfolding(crate::specs::Parts::argument_closed))]
pub(crate) fn end_argument(b: &mut Builder<'_>, base: u16, waiting: bool, slot: u16)
    ensures { Did b.old b.new (argument_closed base waiting slot) }
{
    instr(b, Opcode::End, 0, 0, PostIdx::PLAIN);
    b.resolve_breaks(0, Ends::START);
    let start = b.state.code.finished;
    b.close_segment(base, waiting);
    put_start(b.words, slot, start);
}
