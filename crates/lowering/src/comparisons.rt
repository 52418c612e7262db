// Comparisons with a constant.
ghost use Rattle.program.specs.Opcodes.{number_of};
ghost use Rattle.tree.specs.Nodes.{bytes};
ghost use Rattle.builder.specs.Done.{Did};
ghost use Rattle.lowering.specs.Rules as R;

use crate::parts::instr;
use crate::steps::not_float_only;
use crate::values::{constant_bits, float_bits};
use crate::{Builder, interning};
use payload::{Payload, payload_of};
use program::PostIdx;
use program::opcodes::Opcode;
use tree::Node;

#[tactic(auto, unfolding(crate::specs::Leaves::compare_const))]
fn compare_const(b: &mut Builder<'_>, node: Node<'_>, sub: u8, q: PostIdx)
    ensures { Did b.old b.new (R.compare_const (bytes node.entry) sub node.entry.at q.0) }
{
    let p = payload_of(node);
    let index = interning::konst(b, constant_bits(p));
    instr(b, Opcode::CmpConst, sub, index.0, q);
}

// A hash is compared as a hash, anything else as a float.
#[tactic(auto, unfolding(crate::specs::Leaves::equal_const, crate::specs::Payloads::as_hash, crate::specs::Payloads::cases))]
fn equal_const(b: &mut Builder<'_>, node: Node<'_>, sub: u8, q: PostIdx)
    ensures { Did b.old b.new (R.equal_const (bytes node.entry) sub node.entry.at q.0) }
{
    let p = payload_of(node);
    match p {
        Payload::Hash(h) => {
            not_float_only(b);
            let index = interning::hash(b, h);
            instr(b, Opcode::EqHash, sub, index.0, q);
        }
        _ => {
            let index = interning::konst(b, float_bits(p));
            instr(b, Opcode::EqConst, sub, index.0, q);
        }
    }
}

// The form of a comparison or an equality whose second operand is the constant of the payload. Any other opcode is read as a comparison's.
#[tactic(auto, unfolding(crate::specs::Leaves::constant_form))]
pub(crate) fn constant_form(b: &mut Builder<'_>, node: Node<'_>, op: Opcode, sub: u8, q: PostIdx)
    ensures { Did b.old b.new (R.constant_form (bytes node.entry) (number_of op) sub node.entry.at q.0) }
{
    match op {
        Opcode::Eq => equal_const(b, node, sub, q),
        _ => compare_const(b, node, sub, q),
    }
}
