// Values: what a payload reads as; constants, strings, resources and loads; what stands behind the base of a member and the index of an array.
// A payload of another kind is told by `let .. else`, a rule of the project.
ghost use Rattle.std.specs.Prelude.{◌≡◌};
ghost use Rattle.numeric.specs.Post.{fold};
ghost use Rattle.ast.specs.Node.{offset_at};
ghost use Rattle.payload.specs.Payloads.{payload_ref_at};
ghost use Rattle.program.specs.Opcodes.{number_of};
ghost use Rattle.tree.specs.Nodes.{bytes};
ghost use Rattle.builder.specs.Done.{Did};
ghost use Rattle.lowering.specs.Pools.{constant};
ghost use Rattle.lowering.specs.Payloads.{float_of, const_of, string_of, resource_of};
ghost use Rattle.lowering.specs.Parts.{post_bits};
ghost use Rattle.lowering.specs.Leaves.{hashed, read_flagged};
ghost use Rattle.lowering.specs.Rules as R;

use crate::interning::VariableIdx;
use crate::parts::{bits_of, instr, post, put_post, put_variable};
use crate::steps::{flag, not_float_only};
use crate::{Builder, interning};
use answers::refusals::Refusal;
use numeric::PostOp;
use payload::{NameRef, Payload, payload_of};
use program::opcodes::Opcode;
use program::{Flags, PostIdx};
use tree::Node;
use workspace::words::low;

// ---- what a payload reads as: `float_bits` and `string_hash` are alike, and differ in the case and in its type

#[tactic(auto, unfolding(crate::specs::Payloads::float_of, crate::specs::Payloads::cases))]
pub(crate) fn float_bits(p: Payload) -> u32
    ensures { result ≡ float_of p }
{
    match p {
        Payload::Float(bits) => bits,
        _ => 0,
    }
}

// A float, or the low 32 bits of a hash.
#[tactic(auto, unfolding(crate::specs::Payloads::const_of, crate::specs::Payloads::as_hash, crate::specs::Payloads::float_of, crate::specs::Payloads::cases))]
pub(crate) fn constant_bits(p: Payload) -> u32
    ensures { result ≡ const_of p }
{
    match p {
        Payload::Hash(h) => low(h),
        _ => float_bits(p),
    }
}

#[tactic(auto, unfolding(crate::specs::Payloads::string_of, crate::specs::Payloads::as_hash, crate::specs::Payloads::cases))]
fn string_hash(p: Payload) -> u64
    ensures { result ≡ string_of p }
{
    match p {
        Payload::Hash(h) => h,
        _ => 0,
    }
}

#[tactic(auto, unfolding(crate::specs::Payloads::resource_of, crate::specs::Payloads::as_name, crate::specs::Payloads::cases))]
fn resource_hash(p: Payload) -> u64
    ensures { result ≡ resource_of p }
{
    match p {
        Payload::Geometry(n) => n.hash,
        Payload::Material(n) => n.hash,
        Payload::Texture(n) => n.hash,
        _ => 0,
    }
}

// The node's post folded into a constant.
pub(crate) fn folded(node: Node<'_>, raw: u32) -> u32
    ensures { result ≡ fold (post_bits (bytes node.entry) node.entry.at) raw }
{
    PostOp::from(bits_of(node)).fold(raw)
}

// The constant behind a statement list: its offset alone.
pub(crate) fn list_constant(node: Node<'_>) -> u32
    ensures { result ≡ offset_at (bytes node.entry) node.entry.at }
{
    node.offset()
}

// ---- rules without operands

pub(crate) fn float(b: &mut Builder<'_>, node: Node<'_>)
    ensures { Did b.old b.new (constant (float_of (payload_ref_at (bytes node.entry) node.entry.at))) }
{
    let p = payload_of(node);
    interning::constant(b, float_bits(p));
}

// A hash by the instruction that reads it. The hint has each caller take it in: as a function of its own it makes equal strings slower.
#[inline]
#[tactic(auto, unfolding(crate::specs::Leaves::hashed))]
fn put_hash(b: &mut Builder<'_>, op: Opcode, h: u64)
    ensures { Did b.old b.new (hashed (number_of op) h) }
{
    not_float_only(b);
    let index = interning::hash(b, h);
    instr(b, op, 0, index.0, PostIdx::PLAIN);
}

#[tactic(auto, unfolding(crate::specs::Leaves::string_literal))]
pub(crate) fn string_literal(b: &mut Builder<'_>, node: Node<'_>)
    ensures { Did b.old b.new (R.string_literal (bytes node.entry) node.entry.at) }
{
    put_hash(b, Opcode::Hash, string_hash(payload_of(node)));
}

#[tactic(auto, unfolding(crate::specs::Leaves::resource))]
pub(crate) fn resource(b: &mut Builder<'_>, node: Node<'_>)
    ensures { Did b.old b.new (R.resource (bytes node.entry) node.entry.at) }
{
    put_hash(b, Opcode::Resource, resource_hash(payload_of(node)));
}

// The node's constant with its post folded in.
#[tactic(auto, unfolding(crate::specs::Leaves::generic))]
pub(crate) fn generic_constant(b: &mut Builder<'_>, node: Node<'_>)
    ensures { Did b.old b.new (R.generic (bytes node.entry) node.entry.at) }
{
    let p = payload_of(node);
    let bits = folded(node, constant_bits(p));
    interning::constant(b, bits);
}

#[tactic(auto, unfolding(crate::specs::Leaves::load_context, crate::specs::Payloads::as_name, crate::specs::Payloads::cases))]
fn load_context(b: &mut Builder<'_>, node: Node<'_>, q: PostIdx)
    ensures { Did b.old b.new (R.load_context (bytes node.entry) node.entry.at q.0) }
{
    let p = payload_of(node);
    let Payload::Context(n) = p else {
        return b.failed(Refusal::Failed);
    };
    flag(b, Flags::READS_CONTEXT);
    let index = interning::name(b, n);
    instr(b, Opcode::LoadCtx, 0, u32::from(index.0), q);
}

// A variable that is read is an actor's.
fn flag_read(b: &mut Builder<'_>, index: VariableIdx)
    ensures { Did b.old b.new (read_flagged index) }
{
    if let VariableIdx::Name(_) = index {
        flag(b, Flags::READS_ACTOR_VARS);
    }
}

// A variable, whatever the operator: the payload tells its kind.
#[tactic(auto, unfolding(crate::specs::Leaves::load))]
pub(crate) fn load(b: &mut Builder<'_>, node: Node<'_>)
    ensures { Did b.old b.new (R.load (bytes node.entry) node.entry.at) }
{
    let q = post(b, node);
    let Some(index) = interning::variable(b, node) else {
        return load_context(b, node, q);
    };
    flag_read(b, index);
    put_variable(b, index, Opcode::LoadVar, Opcode::LoadTemp, q);
}

// ---- behind an operand

// A member read behind its base; `last` is the last member of the path.
#[tactic(auto, unfolding(crate::specs::Leaves::member_put, crate::specs::Payloads::as_name, crate::specs::Payloads::cases))]
pub(crate) fn member_put(b: &mut Builder<'_>, node: Node<'_>, last: NameRef)
    ensures { Did b.old b.new (R.member_put (bytes node.entry) node.entry.at last) }
{
    let p = payload_of(node);
    let Payload::Member(n) = p else {
        return b.failed(Refusal::Failed);
    };
    let index = interning::member(b, n, last);
    put_post(b, node, Opcode::Member, 0, u32::from(index.0));
}

#[tactic(auto, unfolding(crate::specs::Leaves::array_put))]
pub(crate) fn array_put(b: &mut Builder<'_>, node: Node<'_>, n: NameRef)
    ensures { Did b.old b.new (R.array_put (bytes node.entry) node.entry.at n) }
{
    let index = interning::name(b, n);
    put_post(b, node, Opcode::ArrayElement, 0, u32::from(index.0));
}
