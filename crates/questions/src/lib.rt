// Questions 2 to 4 on a tree image. A usize has no `From` of a u32, so `as` widens it.
#![tactic(auto)]

ghost use Rattle.std.specs.Prelude.{◌≡◌};
ghost use Rattle.answers.specs.Refusals.{number_of_result};
ghost use Rattle.ast.specs.Node.{size_at};
ghost use Rattle.ast.specs.Questions.{fits, row, filled, rooted, whole, shallow, questions};
ghost use Rattle.tree.specs.Nodes.{bytes};

use answers::refusals::Refusal;
use ast::header;
use tree::Node;

// The node, whose payload takes `size` bytes, is known, holds its own fields, and ends at `end` or before. One test after the other is faster than a chain.
#[tactic(auto, unfolding(ast::specs::Questions::fits, ast::specs::Rules::known, ast::specs::Rules::rule_of))]
fn fits_at(node: Node<'_>, size: u16, end: usize) -> bool
    requires { size ≡ size_at (bytes node) node.at }
    ensures { result ≡ fits (bytes node.entry) node.entry.at end }
{
    if ast::rule_number(node.op()) == 0 || node.kind().is_err() {
        return false;
    }
    let len = node.length() as usize;
    let own = 12 + usize::from(size);
    if len < own {
        return false;
    }
    node.at <= end && 4 + len <= end - node.at
}

// From the node on `n` nodes stand one behind the other up to `end`, each right inside to so many levels.
// A payload's size is read once; count and children stand behind it. Most nodes have no children, and are told without a call.
#[tactic(auto, using(crate::proofs::MoreLevels::next_level), unfolding(ast::specs::Questions::row, ast::specs::Questions::filled))]
fn row_at(node: Node<'_>, levels: u16, n: u16, end: usize) -> bool
    ensures { result ≡ row (filled levels (bytes node.entry)) (bytes node.entry) n node.entry.at end }
{
    if n == 0 {
        return node.at == end;
    }
    let size = node.size();
    if !fits_at(node, size, end) || levels == 0 {
        return false;
    }
    let next = node.next();
    let count = wire::get_u16(*node.image, node.at, 14 + size);
    let first = node.behind(16 + usize::from(size));
    let inside = if count == 0 {
        first.at == next.at
    } else {
        row_at(first, levels - 1, count, next.at)
    };
    if inside {
        return row_at(next, levels, n - 1, end);
    }
    false
}

#[tactic(auto, unfolding(ast::specs::Questions::whole))]
fn whole_at(s: &[u8]) -> bool
    ensures { result ≡ whole s.now }
{
    header::SHORTEST <= s.len()
        && s.len() <= header::LONGEST
        && wire::get_u8(s, 0, 0) == header::VERSION
        && header::SHORTEST + (wire::get_u32(s, 0, header::REST) as usize) == s.len()
}

// The root is right to so many levels, and nothing is left over.
#[tactic(auto, unfolding(ast::specs::Questions::rooted))]
fn rooted_at(tree: &[u8], levels: u16) -> bool
    ensures { result ≡ rooted levels tree.now }
{
    let root = Node {
        image: &tree,
        at: header::ROOT,
    };
    row_at(root, levels, 1, tree.len())
}

#[tactic(auto, unfolding(ast::specs::Questions::shallow))]
fn shallow_at(tree: &[u8]) -> bool
    ensures { result ≡ shallow tree.now }
{
    rooted_at(tree, header::LEVELS)
}

// The first of questions 2 to 4 that is answered by no.
#[tactic(auto, using(crate::proofs::MoreLevels::all_levels), unfolding(ast::specs::Questions::questions, ast::specs::Questions::formed))]
pub fn check_image(tree: &[u8]) -> Result<(), Refusal>
    ensures { number_of_result result ≡ questions tree.now }
{
    if !whole_at(tree) {
        return Err(Refusal::NoTreeImage);
    }
    if 1 < wire::get_u8(tree, 0, header::ARRAYS) || 1 < wire::get_u8(tree, 0, header::DIVISOR) {
        return Err(Refusal::Damaged);
    }
    if shallow_at(tree) {
        return Ok(());
    }
    // This pass tells 3 from 4.
    if rooted_at(tree, header::ALL_LEVELS) {
        return Err(Refusal::TooDeep);
    }
    Err(Refusal::Damaged)
}
