// Control: breaks, the ends of loops, the step of a ForEach variable.
ghost use Rattle.std.specs.Prelude.{◌≡◌};
ghost use Rattle.code.specs.Segments.{front_of};
ghost use Rattle.builder.specs.Done.{Did};
ghost use Rattle.lowering.specs.Done.{Gave};
ghost use Rattle.lowering.specs.Parts.{jump_out, loop_closed, each_closed, each_next};

use crate::Builder;
use crate::interning::VariableIdx;
use crate::parts::{emit_jump, instr, place_target};
use code::segment::{Ends, Waiting};
use program::PostIdx;
use program::opcodes::Opcode;

// A Break or Continue that waits for its loop; Halt where none is open.
#[tactic(auto, unfolding(crate::specs::Parts::jump_out))]
pub(crate) fn jump_out(b: &mut Builder<'_>, waits: Waiting, looping: bool)
    ensures { Did b.old b.new (jump_out (front_of waits) looping) }
{
    if looping {
        b.put(waits.into(), 0);
        return;
    }
    instr(b, Opcode::Halt, 0, 0, PostIdx::PLAIN);
}

// Behind the body of the loop whose LoopBegin stands at `at`.
#[tactic(auto, unfolding(crate::specs::Parts::loop_closed))]
pub(crate) fn close_loop(b: &mut Builder<'_>, at: u16)
    ensures { Did b.old b.new (loop_closed at) }
{
    let check = u32::from(b.state.place());
    let cleanup = check + 1;
    b.resolve_breaks(at.saturating_add(1), Ends { check, cleanup });
    instr(b, Opcode::LoopCheck, 0, u32::from(at) + 1, PostIdx::PLAIN);
    instr(b, Opcode::LoopEnd, 0, 0, PostIdx::PLAIN);
    place_target(b, at);
}

// Behind the body of the ForEach whose EachBegin and EachNext stand at `begin` and `next`.
#[tactic(auto, unfolding(crate::specs::Parts::each_closed))]
pub(crate) fn close_each(b: &mut Builder<'_>, begin: u16, next: u16)
    ensures { Did b.old b.new (each_closed begin next) }
{
    let check = u32::from(next);
    let cleanup = u32::from(b.state.place()) + 1;
    b.resolve_breaks(next.saturating_add(1), Ends { check, cleanup });
    instr(b, Opcode::Jump, 0, check, PostIdx::PLAIN);
    place_target(b, next);
    instr(b, Opcode::LoopEnd, 0, 0, PostIdx::PLAIN);
    place_target(b, begin);
}

// The variable's EachNext, whose target is not known yet.
#[tactic(auto, unfolding(crate::specs::Parts::each_next))]
pub(crate) fn each_next(b: &mut Builder<'_>, index: VariableIdx) -> u16
    ensures { Gave b.old b.new result (each_next index) }
{
    match index {
        VariableIdx::Name(n) => emit_jump(b, Opcode::EachNextVar, 0, n.0),
        VariableIdx::Temp(n) => emit_jump(b, Opcode::EachNextTemp, 0, n.0),
    }
}
