// Interning of constants, posts, hashes, names, temps and members: each gives the entry's index, in its kind.
ghost use Rattle.std.specs.Prelude.{◌≡◌};
ghost use Rattle.numeric.specs.Post.{is_identity};
ghost use Rattle.numeric.specs.PostOp.{patterns, post_of};
ghost use Rattle.tree.specs.Nodes.{bytes};
ghost use Rattle.builder.specs.Done.{Did};
ghost use Rattle.lowering.specs.Done.{Gave, GaveVariable};
ghost use Rattle.lowering.specs.Leaves.{variable};
ghost use Rattle.lowering.specs.Pools.{konst, post, hash, name, slot, temp, member, text_place, constant};

use crate::steps::flag;
use crate::{Builder, regions};
use numeric::{PostBits, PostOp};
use payload::{NameRef, Payload, payload_of};
use program::{ConstIdx, Flags, HashIdx, MemberIdx, NameIdx, PostIdx, TempIdx};
use tree::Node;
use workspace::words::{high, low};

// The mark behind a constant's bits where all places with these bits share the entry, as they all do.
const SHARED: u32 = 0;

// A constant, by its bits and the mark.
#[tactic(auto, unfolding(crate::specs::Pools::konst))]
pub(crate) fn konst(b: &mut Builder<'_>, bits: u32) -> ConstIdx
    ensures { Gave b.old b.new result.0 (konst bits) }
{
    let i = regions::CONSTS.intern(b.words, &mut b.state.pools.consts, &[bits, SHARED]);
    ConstIdx(u32::from(i))
}

#[tactic(auto, unfolding(crate::specs::Pools::hash))]
pub(crate) fn hash(b: &mut Builder<'_>, h: u64) -> HashIdx
    ensures { Gave b.old b.new result.0 (hash h) }
{
    let i = regions::HASHES.intern(b.words, &mut b.state.pools.hashes, &[high(h), low(h)]);
    HashIdx(u32::from(i))
}

// The place of a text's length byte: the one before the text. `as` cuts what has been made to fit.
fn text_place(at: usize) -> u32
    ensures { result ≡ text_place at }
{
    (at.saturating_sub(1) % 4294967296) as u32
}

// A name, by its hash; the first text stays.
#[tactic(auto, unfolding(crate::specs::Pools::name))]
pub(crate) fn name(b: &mut Builder<'_>, n: NameRef) -> NameIdx
    ensures { Gave b.old b.new result.0 (name n) }
{
    let entry = [high(n.hash), low(n.hash), text_place(n.at)];
    let i = regions::NAMES.intern(b.words, &mut b.state.pools.names, &entry);
    NameIdx(i)
}

// A member, by its own hash and the last one of its path.
#[tactic(auto, unfolding(crate::specs::Pools::member))]
pub(crate) fn member(b: &mut Builder<'_>, own: NameRef, last: NameRef) -> MemberIdx
    ensures { Gave b.old b.new result.0 (member own last) }
{
    let entry = [
        high(own.hash),
        low(own.hash),
        high(last.hash),
        low(last.hash),
        text_place(own.at),
        text_place(last.at),
    ];
    let i = regions::MEMBERS.intern(b.words, &mut b.state.pools.members, &entry);
    MemberIdx(i)
}

// The slot of a temp, by its name.
#[tactic(auto, unfolding(crate::specs::Pools::slot))]
fn slot(b: &mut Builder<'_>, named: NameIdx) -> TempIdx
    ensures { Gave b.old b.new result.0 (slot named.0) }
{
    let i = regions::TEMPS.intern(b.words, &mut b.state.pools.temps, &[u32::from(named.0)]);
    TempIdx(i)
}

// Whether a post is the identity: the test of its floats is that of their patterns.
pub(crate) fn is_identity(p: PostOp, bits: PostBits) -> bool
    requires { p ≡ post_of (patterns bits) }
    ensures { result ≡ is_identity (patterns bits) }
{
    p.is_identity()
}

// A post, looked up by its bit patterns, which go beside it since no float keeps a NaN's; the identity is slot 0 and is not looked up.
#[tactic(auto, unfolding(crate::specs::Pools::post))]
pub(crate) fn post_of(b: &mut Builder<'_>, p: PostOp, bits: PostBits) -> PostIdx
    requires { p ≡ post_of (patterns bits) }
    ensures { Gave b.old b.new result.0 (post (patterns bits)) }
{
    if is_identity(p, bits) {
        return PostIdx::PLAIN;
    }
    let i = regions::POSTS.intern(
        b.words,
        &mut b.state.pools.posts,
        &[bits.scale, bits.offset],
    );
    PostIdx(i.saturating_add(1))
}

// A temp: its name first, then its slot; the program uses temps.
#[tactic(auto, unfolding(crate::specs::Pools::temp, crate::specs::Steps::flagged))]
pub(crate) fn temp(b: &mut Builder<'_>, n: NameRef) -> TempIdx
    ensures { Gave b.old b.new result.0 (temp n) }
{
    let named = name(b, n);
    flag(b, Flags::USES_TEMPS);
    slot(b, named)
}

// The index of a variable or a temp. Two cases with an index each, for which the library has no shape.
#[derive(Clone, Copy, Drop)]
pub enum VariableIdx {
    Name(NameIdx),
    Temp(TempIdx),
}

// The variable or temp that the node names; nothing is done where it names neither. The hint has each caller take it in: as a function of its own it makes
// names slower, by 2 %.
#[inline(always)]
#[tactic(auto, unfolding(crate::specs::Leaves::variable, crate::specs::Payloads::as_name, crate::specs::Payloads::cases))]
pub(crate) fn variable(b: &mut Builder<'_>, node: Node<'_>) -> Option<VariableIdx>
    ensures { GaveVariable b.old b.new result (variable (bytes node.entry) node.entry.at) }
{
    match payload_of(node) {
        Payload::Entity(n) => Some(VariableIdx::Name(name(b, n))),
        Payload::Temp(n) => Some(VariableIdx::Temp(temp(b, n))),
        _ => None,
    }
}

// A constant is interned and put: Const, or PushConst where a Push waits.
#[tactic(auto, unfolding(crate::specs::Pools::constant))]
pub(crate) fn constant(b: &mut Builder<'_>, bits: u32)
    ensures { Did b.old b.new (constant bits) }
{
    let index = konst(b, bits);
    b.put_const(index);
}
