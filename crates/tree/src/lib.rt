// A node of a tree image, by the place where it begins. Past the end every byte reads 0, and no place lies past the end.
#![tactic(auto)]

ghost use Rattle.std.specs.Prelude.{◌≡◌, ◌<◌, ◌≤◌, length};
ghost use Rattle.std.specs.Iterator.{at_most};
ghost use Rattle.wire.specs.Bytes.{reach};
ghost use Rattle.ast.specs.Rules.{rule_at};
ghost use Rattle.ast.specs.Meaning.{meaning};
ghost use Rattle.ast.specs.Kinds.{KindOf};
ghost use Rattle.ast.specs.Node.{len_at, op_at, scale_at, offset_at, kind_at, size_at, count_at};
ghost use Rattle.tree.specs.Nodes.{bytes, first_child, next_node, Walks};

use ast::kinds::{Kind, UnknownKind};
use ast::rules::Rule;

// Two words, which go in registers: with the image's slice in it, of three words, lists of short statements were a third slower.
#[derive(Clone, Copy, Drop)]
pub struct Node<'a> {
    pub image: &'a &'a [u8],
    pub at: usize,
}

// The place `k` bytes behind `p`, or the end.
pub fn place(s: &[u8], p: usize, k: usize) -> usize
    ensures { (result ≡ reach s.now p k) × (result ≤ length s.now) }
{
    p.saturating_add(k).min(s.len())
}

// A walk over nodes one behind the other: `left` are still to come, from `next` on.
#[derive(Drop)]
pub struct Siblings<'a> {
    next: Node<'a>,
    left: u16,
}

impl<'a> Iterator for Siblings<'a> {
    type Item = Node<'a>;

    ghost next_gives = { Walks };

    ghost remaining = { λ s. at_most s.left };

    fn next(&mut self) -> Option<Node<'a>> {
        if self.left == 0 {
            return None;
        }
        let node = self.next;
        self.left -= 1;
        self.next = node.next();
        Some(node)
    }
}

impl<'a> Node<'a> {
    // The length of the node's rest.
    pub fn length(self) -> u32
        ensures { result ≡ len_at (bytes self.entry) self.entry.at }
    {
        wire::get_u32(*self.image, self.at, 0)
    }

    // The operator code. A number, as the table has it: a code may have no rule.
    pub fn op(self) -> u8
        ensures { result ≡ op_at (bytes self.entry) self.entry.at }
    {
        wire::get_u8(*self.image, self.at, 4)
    }

    // The operator's rule.
    pub fn rule(self) -> Rule
        ensures { meaning result ≡ rule_at (op_at (bytes self.entry) self.entry.at) }
    {
        ast::rule(self.op())
    }

    // The bits of the post's scale.
    pub fn scale(self) -> u32
        ensures { result ≡ scale_at (bytes self.entry) self.entry.at }
    {
        wire::get_u32(*self.image, self.at, 5)
    }

    // The bits of the post's offset.
    pub fn offset(self) -> u32
        ensures { result ≡ offset_at (bytes self.entry) self.entry.at }
    {
        wire::get_u32(*self.image, self.at, 9)
    }

    // The payload's kind: what the image has need be no kind's.
    pub fn kind(self) -> Result<Kind, UnknownKind>
        ensures { KindOf (kind_at (bytes self.entry) self.entry.at) result }
    {
        Kind::try_from(wire::get_u8(*self.image, self.at, 13))
    }

    // What begins `k` bytes behind, or at the end. No invariant for the place, here and in `first` and `next`: a root may lie past a short image.
    pub fn behind(self, k: usize) -> Node<'a>
        ensures { (result ≡ record { image = self.entry.image; at = reach (bytes self.entry) self.entry.at k }) × (result.at ≤ length (bytes self.entry)) }
    {
        Node {
            image: self.image,
            at: place(*self.image, self.at, k),
        }
    }

    // The bytes that the payload takes. A name has its hash, its text's length and its text.
    #[tactic(auto, unfolding(ast::specs::Node::size_of))]
    pub fn size(self) -> u16
        ensures { (result ≡ size_at (bytes self.entry) self.entry.at) × (result < 265) }
    {
        match self.kind() {
            Ok(Kind::None) => 0,
            Ok(Kind::Float) => 4,
            Ok(Kind::Hash) => 8,
            Ok(Kind::Query) => 3,
            Ok(Kind::HostMath) => 2,
            Ok(_) => 9 + u16::from(wire::get_u8(*self.image, self.at, 22)),
            Err(_) => 0,
        }
    }

    // How many children the node has.
    pub fn count(self) -> u16
        ensures { result ≡ count_at (bytes self.entry) self.entry.at }
    {
        wire::get_u16(*self.image, self.at, 14 + self.size())
    }

    // The first child.
    pub fn first(self) -> Node<'a>
        ensures { (result ≡ first_child self.entry) × (result.at ≤ length (bytes self.entry)) }
    {
        self.behind(16 + usize::from(self.size()))
    }

    // What stands behind the node. A usize has no `From` of a u32, so `as` widens it.
    pub fn next(self) -> Node<'a>
        ensures { (result ≡ next_node self.entry) × (result.at ≤ length (bytes self.entry)) }
    {
        self.behind(4 + (self.length() as usize))
    }

    // So many nodes one behind the other, this one first.
    pub fn siblings(self, count: u16) -> Siblings<'a>
        ensures { result ≡ record { next = self.entry; left = count } }
    {
        Siblings {
            next: self,
            left: count,
        }
    }

    // The children in order.
    pub fn children(self) -> Siblings<'a>
        ensures { result ≡ record { next = first_child self.entry; left = count_at (bytes self.entry) self.entry.at } }
    {
        self.first().siblings(self.count())
    }
}
