// What an assignment stores to: a variable, a temp, or a member path of a root. `levels` and the post have nothing in common but their way.
ghost use Rattle.std.specs.Prelude.{◌≡◌};
ghost use Rattle.tree.specs.Nodes.{bytes};
ghost use Rattle.builder.specs.Done.{Did};
ghost use Rattle.lowering.specs.Done.{Gave};
ghost use Rattle.lowering.specs.Kinds.{root_kind, root_index};
ghost use Rattle.lowering.specs.Parts.{path_added, store_added};
ghost use Rattle.lowering.specs.Rules as R;

use crate::interning::VariableIdx;
use crate::parts::{instr, put_variable};
use crate::steps::{flag, not_float_only};
use crate::{Builder, interning, regions};
use answers::refusals::Refusal;
use ast::rules::Rule;
use payload::{Payload, payload_of};
use program::opcodes::Opcode;
use program::{Flags, PostIdx, StoreIdx};
use tree::Node;
use workspace::words::{high, low};

// Where a member path ends: its root, a place, as the definition gives it; and how many links it has.
#[derive(Drop)]
pub struct PathEnd {
    pub root: usize,
    pub count: u16,
}

// None where a link is no member with a child.
#[tactic(auto, using(crate::proofs::Paths::no_end, crate::proofs::Paths::an_end), unfolding(crate::specs::Payloads::as_name, crate::specs::Payloads::cases))]
fn path_end(node: Node<'_>, levels: u16) -> Option<PathEnd>
    ensures { result ≡ R.path_end (bytes node.entry) levels node.entry.at }
{
    if levels == 0 {
        return None;
    }
    let Rule::Member = node.rule() else {
        return Some(PathEnd {
            root: node.at,
            count: 0,
        });
    };
    let p = payload_of(node);
    let Payload::Member(_) = p else {
        return None;
    };
    if node.count() == 0 {
        return None;
    }
    let e = path_end(node.first(), levels - 1)?;
    Some(PathEnd {
        root: e.root,
        count: e.count.saturating_add(1),
    })
}

#[tactic(auto, unfolding(crate::specs::Parts::path_added))]
fn add_path(b: &mut Builder<'_>, hash: u64)
    ensures { Did b.old b.new (path_added hash) }
{
    regions::PATHS.append(b.words, &mut b.state.listed.paths, &[high(hash), low(hash)]);
}

// The path's hashes, from the root outwards.
#[tactic(auto, using(crate::proofs::Paths::no_hash, crate::proofs::Paths::a_hash), unfolding(crate::specs::Payloads::as_name, crate::specs::Payloads::cases))]
fn path_hashes(b: &mut Builder<'_>, node: Node<'_>, levels: u16)
    ensures { Did b.old b.new (R.path_hashes (bytes node.entry) levels node.entry.at) }
{
    if levels == 0 {
        return;
    }
    let Rule::Member = node.rule() else {
        return;
    };
    let p = payload_of(node);
    let Payload::Member(n) = p else {
        return;
    };
    path_hashes(b, node.first(), levels - 1);
    add_path(b, n.hash);
}

// The number of a store's root: a variable, a temp, or any other value. No `From`: an `Option` is of another crate, and the workspace's words are numbers.
fn root_kind(root: Option<VariableIdx>) -> u32
    ensures { result ≡ root_kind root }
{
    match root {
        Some(VariableIdx::Name(_)) => 0,
        Some(VariableIdx::Temp(_)) => 1,
        None => 2,
    }
}

// The number of its index; 0 where it has none. No `From`: an `Option` is of another crate, and the workspace's words are numbers.
fn root_index(root: Option<VariableIdx>) -> u16
    ensures { result ≡ root_index root }
{
    match root {
        Some(VariableIdx::Name(n)) => n.0,
        Some(VariableIdx::Temp(n)) => n.0,
        None => 0,
    }
}

#[tactic(auto, unfolding(crate::specs::Parts::store_added))]
fn add_store(b: &mut Builder<'_>, root: Option<VariableIdx>, first: u16, count: u16) -> StoreIdx
    ensures { Gave b.old b.new result.0 (store_added (root_kind root) (root_index root) first count) }
{
    let entry = [
        root_kind(root),
        u32::from(root_index(root)),
        u32::from(first),
        u32::from(count),
    ];
    let k = regions::STORES.append(b.words, &mut b.state.listed.stores, &entry);
    StoreIdx(k)
}

// A store to the path that ends at the node under that root.
#[tactic(auto, unfolding(crate::specs::Leaves::store_as))]
fn store_as(
    b: &mut Builder<'_>,
    node: Node<'_>,
    root: Option<VariableIdx>,
    levels: u16,
    count: u16,
    q: PostIdx,
)
    ensures { Did b.old b.new (R.store_as (bytes node.entry) (root_kind root) (root_index root) levels node.entry.at count q.0) }
{
    let first = b.state.listed.paths;
    path_hashes(b, node, levels);
    let index = add_store(b, root, first, count);
    instr(b, Opcode::StoreMember, 0, u32::from(index.0), q);
}

// The same under the root of the path: a variable, a temp, or any other value.
#[tactic(auto, unfolding(crate::specs::Leaves::store_under))]
fn store_under(b: &mut Builder<'_>, node: Node<'_>, e: PathEnd, levels: u16, q: PostIdx)
    ensures { Did b.old b.new (R.store_under (bytes node.entry) e.root levels node.entry.at e.count q.0) }
{
    let end = Node {
        image: node.image,
        at: e.root,
    };
    let root = interning::variable(b, end);
    store_as(b, node, root, levels, e.count, q);
}

#[tactic(auto, unfolding(crate::specs::Leaves::store_member))]
fn store_member(b: &mut Builder<'_>, node: Node<'_>, levels: u16, q: PostIdx)
    ensures { Did b.old b.new (R.store_member (bytes node.entry) levels node.entry.at q.0) }
{
    let Rule::Member = node.rule() else {
        return b.failed(Refusal::Failed);
    };
    let Some(e) = path_end(node, levels) else {
        return b.failed(Refusal::Failed);
    };
    not_float_only(b);
    flag(b, Flags::USES_MEMBERS);
    store_under(b, node, e, levels, q);
}

// A store to the target, of so many levels, with a post.
#[tactic(auto, unfolding(crate::specs::Leaves::store_to))]
pub(crate) fn store_to(b: &mut Builder<'_>, node: Node<'_>, levels: u16, q: PostIdx)
    ensures { Did b.old b.new (R.store_to (bytes node.entry) levels node.entry.at q.0) }
{
    match interning::variable(b, node) {
        Some(index) => put_variable(b, index, Opcode::StoreVar, Opcode::StoreTemp, q),
        None => store_member(b, node, levels, q),
    }
}

// Why the target is refused before anything is lowered, if it is.
#[tactic(auto, unfolding(crate::specs::Leaves::target_refusal, crate::specs::Payloads::as_name, crate::specs::Payloads::cases))]
pub(crate) fn target_refusal(node: Node<'_>) -> Option<Refusal>
    ensures { result ≡ R.target_refusal_at (bytes node.entry) node.entry.at }
{
    match node.rule() {
        Rule::Member => None,
        Rule::Entity => None,
        Rule::Pointer => Some(Refusal::WriteToOtherMob),
        _ => match payload_of(node) {
            Payload::Temp(_) => None,
            _ => Some(Refusal::Failed),
        },
    }
}
