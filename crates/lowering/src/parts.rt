// Parts of rules: an instruction, the node's post, an instruction whose target comes later.
ghost use Rattle.std.specs.Prelude.{◌≡◌};
ghost use Rattle.numeric.specs.PostOp.{patterns};
ghost use Rattle.program.specs.Opcodes.{number_of};
ghost use Rattle.tree.specs.Nodes.{bytes};
ghost use Rattle.builder.specs.Done.{Did};
ghost use Rattle.lowering.specs.Done.{Gave};
ghost use Rattle.lowering.specs.Pools as B;
ghost use Rattle.lowering.specs.Parts.{front, instr, put_variable, post_bits, put_post, post_instr, emit_jump, place_target};

use crate::interning::VariableIdx;
use crate::{Builder, interning};
use numeric::{PostBits, PostOp};
use program::PostIdx;
use program::opcodes::Opcode;
use tree::Node;

fn front(op: Opcode, sub: u8, b: u16) -> u32
    ensures { result ≡ front (number_of op) sub b }
{
    let [high, low] = b.to_be_bytes();
    u32::from_be_bytes([u8::from(op), sub, high, low])
}

// An instruction of these fields; a Push that waits comes first. The sub is a number: a comparison's, a divisor's, or a count of arguments.
#[tactic(auto, unfolding(crate::specs::Parts::instr))]
pub(crate) fn instr(b: &mut Builder<'_>, op: Opcode, sub: u8, a: u32, post: PostIdx)
    ensures { Did b.old b.new (instr (number_of op) sub a post.0) }
{
    b.put(front(op, sub, post.0), a);
}

// The one instruction with a variable's index, the other with a temp's. The hint has each caller take it in, as `interning::variable`.
#[inline(always)]
#[tactic(auto, unfolding(crate::specs::Parts::put_variable))]
pub(crate) fn put_variable(
    b: &mut Builder<'_>,
    i: VariableIdx,
    variable: Opcode,
    temp: Opcode,
    q: PostIdx,
)
    ensures { Did b.old b.new (put_variable (number_of variable) (number_of temp) i q.0) }
{
    match i {
        VariableIdx::Name(n) => instr(b, variable, 0, u32::from(n.0), q),
        VariableIdx::Temp(n) => instr(b, temp, 0, u32::from(n.0), q),
    }
}

// The patterns of the node's post. No `From`: both types are of other crates.
pub(crate) fn bits_of(node: Node<'_>) -> PostBits
    ensures { patterns result ≡ post_bits (bytes node.entry) node.entry.at }
{
    PostBits {
        scale: node.scale(),
        offset: node.offset(),
    }
}

// The slot of the node's post.
pub(crate) fn post(b: &mut Builder<'_>, node: Node<'_>) -> PostIdx
    ensures { Gave b.old b.new result.0 (B.post (post_bits (bytes node.entry) node.entry.at)) }
{
    let bits = bits_of(node);
    interning::post_of(b, PostOp::from(bits), bits)
}

// An instruction with the node's post.
#[tactic(auto, unfolding(crate::specs::Parts::put_post))]
pub(crate) fn put_post(b: &mut Builder<'_>, node: Node<'_>, op: Opcode, sub: u8, a: u32)
    ensures { Did b.old b.new (put_post (bytes node.entry) node.entry.at (number_of op) sub a) }
{
    let q = post(b, node);
    instr(b, op, sub, a, q);
}

// A Post behind a branch; nothing for the identity.
#[tactic(auto, unfolding(crate::specs::Parts::post_instr))]
pub(crate) fn post_instr(b: &mut Builder<'_>, node: Node<'_>)
    ensures { Did b.old b.new (post_instr (bytes node.entry) node.entry.at) }
{
    let bits = bits_of(node);
    if interning::is_identity(PostOp::from(bits), bits) {
        b.flush();
        return;
    }
    put_post(b, node, Opcode::Post, 0, 0);
}

// An instruction whose target is not known yet; its place in the open segment.
#[tactic(auto, unfolding(crate::specs::Parts::emit_jump))]
pub(crate) fn emit_jump(b: &mut Builder<'_>, op: Opcode, sub: u8, c: u16) -> u16
    ensures { Gave b.old b.new result (emit_jump (number_of op) sub c) }
{
    b.flush();
    let at = b.state.place();
    b.emit(front(op, sub, c), 0);
    at
}

// The target of the instruction at that place is the next one.
#[tactic(auto, unfolding(crate::specs::Parts::place_target))]
pub(crate) fn place_target(b: &mut Builder<'_>, at: u16)
    ensures { Did b.old b.new (place_target at) }
{
    let to = b.state.place();
    b.set_target(at, u32::from(to));
}
