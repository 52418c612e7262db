// Steps beside the workspace's words: the depth counters, the flags. Each by itself, as depth's cores: a rule of the project names them.
ghost use Rattle.builder.specs.Done.{Did};
ghost use Rattle.builder.specs.Steps.{still};
ghost use Rattle.lowering.specs.Steps.{operand_entered, popped, loop_entered, loop_left, handler_entered, handler_left, flagged, not_float_only, queried};

use crate::Builder;
use program::Flags;

// One more operand, which no Push puts there.
#[tactic(auto, unfolding(crate::specs::Steps::operand_entered))]
pub(crate) fn operand(b: &mut Builder<'_>)
    ensures { Did b.old b.new (still operand_entered) }
{
    b.state.depth.push_operand();
}

#[tactic(auto, unfolding(crate::specs::Steps::popped))]
pub(crate) fn pop(b: &mut Builder<'_>, k: u16)
    ensures { Did b.old b.new (still (popped k)) }
{
    b.state.depth.pop_operands(k);
}

#[tactic(auto, unfolding(crate::specs::Steps::loop_entered))]
pub(crate) fn enter_loop(b: &mut Builder<'_>)
    ensures { Did b.old b.new (still loop_entered) }
{
    b.state.depth.enter_loop();
}

#[tactic(auto, unfolding(crate::specs::Steps::loop_left))]
pub(crate) fn leave_loop(b: &mut Builder<'_>)
    ensures { Did b.old b.new (still loop_left) }
{
    b.state.depth.leave_loop();
}

#[tactic(auto, unfolding(crate::specs::Steps::handler_entered))]
pub(crate) fn enter_handler(b: &mut Builder<'_>)
    ensures { Did b.old b.new (still handler_entered) }
{
    b.state.depth.enter_handler();
}

#[tactic(auto, unfolding(crate::specs::Steps::handler_left))]
pub(crate) fn leave_handler(b: &mut Builder<'_>)
    ensures { Did b.old b.new (still handler_left) }
{
    b.state.depth.leave_handler();
}

#[tactic(auto, unfolding(crate::specs::Steps::flagged))]
pub(crate) fn flag(b: &mut Builder<'_>, bits: u16)
    ensures { Did b.old b.new (still (flagged bits)) }
{
    b.state.flags.bits |= bits;
}

// The program is not FLOAT_ONLY, and does not start on the float loop.
#[tactic(auto, unfolding(crate::specs::Steps::not_float_only))]
pub(crate) fn not_float_only(b: &mut Builder<'_>)
    ensures { Did b.old b.new (still not_float_only) }
{
    b.state.flags.bits &= Flags::NOT_FLOAT;
    b.state.flags.float_loop = false;
}

// A query: without arguments it can run on the float loop.
#[tactic(auto, unfolding(crate::specs::Steps::queried))]
pub(crate) fn query_flags(b: &mut Builder<'_>, alone: bool)
    ensures { Did b.old b.new (still (queried alone)) }
{
    b.state.flags.bits = (b.state.flags.bits & Flags::NOT_FLOAT) | Flags::USES_QUERIES;
    if !alone {
        b.state.flags.float_loop = false;
    }
}
