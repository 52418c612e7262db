// The lowering: an expression picks its operator's rule, and that rule reads its operands as expressions; the remaining levels fall.
// A rule takes the builder, which it changes, and the node, which it reads: no one value, since each child has the same builder.
#![tactic(auto)]

mod assign;
mod calls;
mod comparisons;
mod control;
mod inside;
mod interning;
mod parts;
mod pools;
mod regions;
mod steps;
mod values;

ghost use Rattle.std.specs.Prelude.{◌≡◌, List, false, ◌-◌, ◌≤◌, eqb};
ghost use Rattle.wire.specs.Bytes.{be8};
ghost use Rattle.ast.specs.Meaning.{meaning};
ghost use Rattle.ast.specs.Node.{first_at, next_at};
ghost use Rattle.ast.specs.declared.rules.Rule.TheVariants as TheRules;
ghost use Rattle.program.specs.Image.{bit};
ghost use Rattle.program.specs.Opcodes.{number_of};
ghost use Rattle.program.specs.Subs.{divisor_of};
ghost use Rattle.tree.specs.Nodes.{bytes};
ghost use Rattle.lowering.specs.Held.{Held};
ghost use Rattle.builder.specs.Done.{Did};
ghost use Rattle.lowering.specs.Parts.{each_next};
ghost use Rattle.lowering.specs.Rules as R;
ghost use Rattle.lowering.specs.Nodes.{over, lowered_as};

use answers::refusals::Refusal;
use ast::header;
use ast::rules::{Plain, Rule};
use builder::{OpenCode, State};
use code::segment::{Ends, Waiting};
use depth::Depth;
use inside::Inside;
use interning::VariableIdx;
use parts::{emit_jump, instr, place_target, post, post_instr, put_post};
use payload::{NameRef, Payload, payload_of};
use program::opcodes::Opcode;
use program::subs::Divisor;
use program::{Depths, Flags, PostIdx};
use steps::{flag, not_float_only, pop};
use tree::Node;
use workspace::counts::{Listed, Pools};

// A builder whose refusals are those of the nine questions.
pub(crate) type Builder<'a> = builder::Builder<'a, Refusal>;

// The tree of an image as the main code, its End, and all that it needs in the workspace.
#[tactic(auto, unfolding(crate::specs::Rules::lowered))]
pub fn lower(tree: &[u8], ws: &mut [u32]) -> State<Refusal>
    ensures { ◌≡◌ {A = Held} (result, ws.new) (R.lowered tree.now ws.old) }
{
    let mut b = Builder {
        state: start(),
        words: ws,
    };
    let root = Node {
        image: &tree,
        at: header::ROOT,
    };
    let inside = Inside {
        looping: false,
        levels: header::LEVELS,
    };
    expr(&mut b, root, inside);
    instr(&mut b, Opcode::End, 0, 0, PostIdx::PLAIN);
    b.resolve_breaks(0, Ends::START);
    b.state
}

// Nothing is lowered yet.
fn start() -> State<Refusal>
    ensures { result ≡ R.start }
{
    State {
        pools: Pools::EMPTY,
        listed: Listed::EMPTY,
        code: OpenCode {
            top: 0,
            base: 0,
            finished: 0,
            waiting: false,
        },
        depth: Depth {
            now: Depths::NOTHING_OPEN,
            max: Depths::NOTHING_OPEN,
        },
        flags: Flags {
            bits: Flags::FLOAT_ONLY,
            float_loop: true,
        },
        refusal: None,
    }
}

// The node as an expression. A `match` on the rule here and in `plain`, which is a rule of the project: `expr` calls the rules, and they call `expr`.
#[cycle(expression)]
#[tactic(auto, unfolding(crate::specs::Rules::expr, crate::specs::Rules::branch), using(crate::proofs::Rounds::by_rule))]
fn expr(b: &mut Builder<'_>, node: Node<'_>, inside: Inside)
    ensures { Did b.old b.new (R.expr (bytes node.entry) inside.levels node.entry.at inside.looping) }
{
    if inside.levels == 0 {
        return b.failed(Refusal::Failed);
    }
    let n = inside.deeper();
    match node.rule() {
        Rule::Return => values::generic_constant(b, node),
        Rule::Member => member(b, node, n),
        Rule::Entity => values::load(b, node),
        Rule::Pointer => pointer(b, node, n),
        Rule::Plain(rule) => plain(b, node, rule, n),
    }
}

// The node by a rule that no other rule looks at.
#[cycle(expression)]
#[tactic(auto, unfolding(crate::specs::Rules::branch))]
fn plain(b: &mut Builder<'_>, node: Node<'_>, rule: Plain, inside: Inside)
    ensures { Did b.old b.new (over node.entry inside.levels R.branch inside.levels node.entry.at inside.looping (meaning (TheRules.Plain rule))) }
{
    match rule {
        Plain::Array => element(b, node, inside),
        Plain::UsesArrays => b.failed(Refusal::UsesArrays),
        Plain::UsesResources => b.failed(Refusal::UsesResources),
        Plain::Float => values::float(b, node),
        Plain::String => values::string_literal(b, node),
        Plain::Resource => values::resource(b, node),
        Plain::This => put_post(b, node, Opcode::This, 0, 0),
        Plain::Load => values::load(b, node),
        Plain::Query => query(b, node, inside.levels),
        Plain::Compare(o) => paired(b, node, Opcode::Cmp, o.into(), inside),
        Plain::Equal(o) => paired(b, node, Opcode::Eq, o.into(), inside),
        Plain::And => logic(b, node, Opcode::AndStep, Opcode::AndLast, inside),
        Plain::Or => logic(b, node, Opcode::OrStep, Opcode::OrLast, inside),
        Plain::Coalesce => coalesce(b, node, inside),
        Plain::Conditional => conditional(b, node, inside),
        Plain::Statements => statements(b, node, inside),
        Plain::Loop => repeat(b, node, inside),
        Plain::ForEach => for_each(b, node, inside),
        Plain::Break => control::jump_out(b, Waiting::Break, inside.looping),
        Plain::Continue => control::jump_out(b, Waiting::Continue, inside.looping),
        Plain::Assign => assignment(b, node, inside),
        Plain::Bracket => par(b, node, inside),
        Plain::Negate => unary(b, node, Opcode::Negate, 0, inside),
        Plain::Not => unary(b, node, Opcode::Not, 0, inside),
        Plain::Add => add(b, node, inside),
        Plain::Mul => bounds(b, node, Opcode::Mul, 0, inside),
        Plain::Div => div(b, node, inside),
        Plain::HostMath => host_math(b, node, 0, inside),
        Plain::HostMathVolatile => host_math(b, node, Flags::RANDOM, inside),
        Plain::Generic => values::generic_constant(b, node),
        Plain::Refused => b.failed(Refusal::Failed),
    }
}

// ---- values; a payload of another kind is told by `let .. else` here and in host_math and query, a rule of the project

// array_element in the Rust: an element of an array variable.
#[cycle(expression)]
#[tactic(auto, unfolding(crate::specs::Rules::array_element, crate::specs::Payloads::as_name, crate::specs::Payloads::cases))]
fn element(b: &mut Builder<'_>, node: Node<'_>, inside: Inside)
    ensures { Did b.old b.new (lowered_as node.entry inside R.array_element) }
{
    if wire::get_u8(*node.image, 0, header::ARRAYS) != 1 {
        return b.failed(Refusal::UsesArrays);
    }
    if node.count() != 1 {
        return b.failed(Refusal::Failed);
    }
    let p = payload_of(node);
    let Payload::ArrayVariable(n) = p else {
        return b.failed(Refusal::Failed);
    };
    not_float_only(b);
    expr(b, node.first(), inside);
    values::array_put(b, node, n);
}

// The node as the base of a member path whose last member is `last`.
#[cycle(expression)]
#[tactic(auto, unfolding(crate::specs::Rules::chain, crate::specs::Rules::chained))]
fn chain(b: &mut Builder<'_>, node: Node<'_>, last: NameRef, inside: Inside)
    ensures { Did b.old b.new (R.chain (bytes node.entry) inside.levels node.entry.at last inside.looping) }
{
    if inside.levels == 0 {
        return b.failed(Refusal::Failed);
    }
    let Rule::Member = node.rule() else {
        return expr(b, node, inside);
    };
    if node.count() == 0 {
        return b.failed(Refusal::Failed);
    }
    chain(b, node.first(), last, inside.deeper());
    values::member_put(b, node, last);
}

// member_read in the Rust: a member of the value of a base.
#[cycle(expression)]
#[tactic(auto, unfolding(crate::specs::Rules::member_read, crate::specs::Rules::chained, crate::specs::Payloads::as_name, crate::specs::Payloads::cases))]
fn member(b: &mut Builder<'_>, node: Node<'_>, inside: Inside)
    ensures { Did b.old b.new (lowered_as node.entry inside R.member_read) }
{
    not_float_only(b);
    flag(b, Flags::USES_MEMBERS);
    let p = payload_of(node);
    let Payload::Member(last) = p else {
        return b.failed(Refusal::Failed);
    };
    if node.count() == 0 {
        return b.failed(Refusal::Failed);
    }
    chain(b, node.first(), last, inside);
    values::member_put(b, node, last);
}

#[cycle(expression)]
#[tactic(auto, unfolding(crate::specs::Rules::assignment, crate::specs::Leaves::store))]
fn assignment(b: &mut Builder<'_>, node: Node<'_>, inside: Inside)
    ensures { Did b.old b.new (over node.entry inside.levels R.assignment inside.levels node.entry.at inside.looping) }
{
    let count = node.count();
    if count == 0 {
        return b.failed(Refusal::Failed);
    }
    let target = node.first();
    if let Some(why) = assign::target_refusal(target) {
        return b.failed(why);
    }
    flag(b, Flags::HAS_ASSIGNMENT);
    rhs(b, node, inside);
    let q = post(b, node);
    assign::store_to(b, target, inside.levels, q);
}

// The second child, or the node's constant.
#[cycle(expression)]
#[tactic(auto, unfolding(crate::specs::Rules::value))]
fn rhs(b: &mut Builder<'_>, node: Node<'_>, inside: Inside)
    ensures { Did b.old b.new (over node.entry inside.levels R.value node.entry.at (first_at (bytes node.entry) node.entry.at) inside.looping) }
{
    if node.count() == 1 {
        let p = payload_of(node);
        return interning::constant(b, values::constant_bits(p));
    }
    expr(b, node.first().next(), inside);
}

// ---- logic

// Two operands with a Push between them, the one at `a` first.
#[cycle(expression)]
#[tactic(auto, unfolding(crate::specs::Rules::binary))]
fn binary(b: &mut Builder<'_>, a: Node<'_>, inside: Inside)
    ensures { Did b.old b.new (lowered_as a.entry inside R.binary) }
{
    expr(b, a, inside);
    b.push();
    expr(b, a.next(), inside);
}

// One child and the constant of the payload, or two children and the instruction of both; the post is interned first.
#[cycle(expression)]
#[tactic(auto, unfolding(crate::specs::Rules::paired))]
fn paired(b: &mut Builder<'_>, node: Node<'_>, op: Opcode, sub: u8, inside: Inside)
    ensures { Did b.old b.new (over node.entry inside.levels R.paired (number_of op) sub node.entry.at inside.looping) }
{
    let count = node.count();
    if count == 0 {
        return b.failed(Refusal::Failed);
    }
    let p = post(b, node);
    let a = node.first();
    if count == 1 {
        expr(b, a, inside);
        return comparisons::constant_form(b, node, op, sub, p);
    }
    binary(b, a, inside);
    instr(b, op, sub, 0, p);
    pop(b, 1);
}

// `&&` and `||`; every operand but the last can lead behind the last. `step` and `last` are given at one place each: an enum of two would want both as
// functions of it.
#[cycle(expression)]
#[tactic(auto, unfolding(crate::specs::Rules::logic))]
fn logic(b: &mut Builder<'_>, node: Node<'_>, step: Opcode, last: Opcode, inside: Inside)
    ensures { Did b.old b.new (over node.entry inside.levels R.logic (number_of step) (number_of last) node.entry.at inside.looping) }
{
    let count = node.count();
    if count == 0 {
        return b.failed(Refusal::Failed);
    }
    let q = post(b, node);
    ops(b, node.first(), step, last, q, count - 1, inside);
}

// `m` steps and the last operand, from the operand at `a` on; every step leads behind the last.
#[cycle(expression)]
#[tactic(auto, unfolding(crate::specs::Rules::operands))]
fn ops(
    b: &mut Builder<'_>,
    a: Node<'_>,
    step: Opcode,
    last: Opcode,
    q: PostIdx,
    m: u16,
    inside: Inside,
)
    ensures { Did b.old b.new (over a.entry inside.levels R.operands (number_of step) (number_of last) q.0 m a.entry.at inside.looping) }
{
    expr(b, a, inside);
    let alone = m == 0;
    if alone {
        return instr(b, last, 0, 0, q);
    }
    let e = emit_jump(b, step, 0, q.0);
    ops(b, a.next(), step, last, q, m - 1, inside);
    place_target(b, e);
}

// ---- arithmetic

// Brackets: the first child.
#[cycle(expression)]
#[tactic(auto, unfolding(crate::specs::Rules::bracket))]
fn par(b: &mut Builder<'_>, node: Node<'_>, inside: Inside)
    ensures { Did b.old b.new (lowered_as node.entry inside R.bracket) }
{
    if node.count() == 0 {
        return b.failed(Refusal::Failed);
    }
    expr(b, node.first(), inside);
}

#[cycle(expression)]
#[tactic(auto, unfolding(crate::specs::Rules::unary))]
fn unary(b: &mut Builder<'_>, node: Node<'_>, op: Opcode, sub: u8, inside: Inside)
    ensures { Did b.old b.new (over node.entry inside.levels R.unary (number_of op) sub node.entry.at inside.looping) }
{
    if node.count() == 0 {
        return b.failed(Refusal::Failed);
    }
    expr(b, node.first(), inside);
    put_post(b, node, op, sub, 0);
}

// The n-ary +: the first term pushed, every further one added to it, the last with the post.
#[cycle(expression)]
#[tactic(auto, unfolding(crate::specs::Rules::add))]
fn add(b: &mut Builder<'_>, node: Node<'_>, inside: Inside)
    ensures { Did b.old b.new (lowered_as node.entry inside R.add) }
{
    let count = node.count();
    if count == 0 {
        return b.failed(Refusal::Failed);
    }
    let first = node.first();
    expr(b, first, inside);
    if count == 1 {
        return post_instr(b, node);
    }
    b.push();
    terms(b, node, count - 2, inside);
    pop(b, 1);
}

// The second term, and the `m` behind it.
#[cycle(expression)]
#[tactic(auto, unfolding(crate::proofs::Rounds::terms_behind), using(crate::proofs::Rounds::terms_after_first))]
fn terms(b: &mut Builder<'_>, node: Node<'_>, m: u16, inside: Inside)
    ensures { Did b.old b.new
        (over node.entry inside.levels R.terms node.entry.at m
        (next_at (bytes node.entry) (first_at (bytes node.entry) node.entry.at)) inside.looping) }
{
    let second = node.first().next();
    expr(b, second, inside);
    for term in second.next().siblings(m) {
        instr(b, Opcode::AddAcc, 0, 0, PostIdx::PLAIN);
        expr(b, term, inside);
    }
    put_post(b, node, Opcode::AddLast, 0, 0);
}

// Two children, and the instruction of both with the post behind them.
#[cycle(expression)]
#[tactic(auto, unfolding(crate::specs::Rules::bounds))]
fn bounds(b: &mut Builder<'_>, node: Node<'_>, op: Opcode, sub: u8, inside: Inside)
    ensures { Did b.old b.new (over node.entry inside.levels R.bounds (number_of op) sub node.entry.at inside.looping) }
{
    if node.count() < 2 {
        return b.failed(Refusal::Failed);
    }
    binary(b, node.first(), inside);
    put_post(b, node, op, sub, 0);
    pop(b, 1);
}

// The setting of a tree image: any byte but 1 is signed, so that this reads every image.
#[tactic(auto, unfolding(program::specs::Image::bit))]
fn divisor(tree: &[u8]) -> Divisor
    ensures { divisor_of result ≡ bit (eqb (be8 tree.now 0 6) 1) }
{
    if wire::get_u8(tree, 0, header::DIVISOR) == 1 {
        return Divisor::Absolute;
    }
    Divisor::Signed
}

// The second child first; its guard pushes the divisor.
#[cycle(expression)]
#[tactic(auto, unfolding(crate::specs::Rules::div))]
fn div(b: &mut Builder<'_>, node: Node<'_>, inside: Inside)
    ensures { Did b.old b.new (lowered_as node.entry inside R.div) }
{
    if node.count() < 2 {
        return b.failed(Refusal::Failed);
    }
    let a = node.first();
    expr(b, a.next(), inside);
    let e = emit_jump(b, Opcode::DivGuard, divisor(*node.image).into(), 0);
    steps::operand(b);
    expr(b, a, inside);
    put_post(b, node, Opcode::Div, 0, 0);
    pop(b, 1);
    place_target(b, e);
}

// Every argument but the last pushed, in order.
#[cycle(expression)]
#[tactic(auto, unfolding(crate::specs::Rules::host_math, crate::specs::Payloads::as_math, crate::specs::Payloads::cases))]
fn host_math(b: &mut Builder<'_>, node: Node<'_>, bits: u16, inside: Inside)
    ensures { Did b.old b.new (over node.entry inside.levels R.host_math bits node.entry.at inside.looping) }
{
    flag(b, bits);
    let p = payload_of(node);
    let Payload::HostMath(f) = p else {
        return b.failed(Refusal::Failed);
    };
    let count = node.count();
    if count == 0 {
        return b.failed(Refusal::Failed);
    }
    let Ok(k) = u8::try_from(count) else {
        return b.failed(Refusal::Failed);
    };
    host(b, node, f, k, count - 1, inside);
    pop(b, count - 1);
}

// The first argument, and the `m` behind it; `k` is how many they are.
#[cycle(expression)]
#[tactic(auto, unfolding(crate::proofs::Rounds::arguments_behind), using(crate::proofs::Rounds::host_after_first))]
fn host(b: &mut Builder<'_>, node: Node<'_>, f: u16, k: u8, m: u16, inside: Inside)
    ensures { Did b.old b.new
        (over node.entry inside.levels R.host_arguments node.entry.at f k m
        (first_at (bytes node.entry) node.entry.at) inside.looping) }
{
    let first = node.first();
    expr(b, first, inside);
    for argument in first.next().siblings(m) {
        b.push();
        expr(b, argument, inside);
    }
    put_post(b, node, Opcode::HostMath, k, u32::from(f));
}

// ---- calls

// The second child between PointerEnter, behind the first, and PointerLeave.
#[cycle(expression)]
#[tactic(auto, unfolding(crate::specs::Rules::pointer))]
fn pointer(b: &mut Builder<'_>, node: Node<'_>, inside: Inside)
    ensures { Did b.old b.new (lowered_as node.entry inside R.pointer) }
{
    not_float_only(b);
    flag(b, Flags::USES_ARROW);
    if node.count() < 2 {
        return b.failed(Refusal::Failed);
    }
    let q = post(b, node);
    let a = node.first();
    expr(b, a, inside);
    let e = emit_jump(b, Opcode::PointerEnter, 0, q.0);
    expr(b, a.next(), inside);
    instr(b, Opcode::PointerLeave, 0, 0, q);
    place_target(b, e);
}

#[cycle(expression)]
#[tactic(auto, unfolding(crate::specs::Rules::query, crate::specs::Rules::called, crate::specs::Payloads::as_query, crate::specs::Payloads::cases))]
fn query(b: &mut Builder<'_>, node: Node<'_>, levels: u16)
    ensures { Did b.old b.new (over node.entry levels R.query node.entry.at) }
{
    let p = payload_of(node);
    let Payload::Query(q) = p else {
        return b.failed(Refusal::Failed);
    };
    let count = node.count();
    steps::query_flags(b, count == 0);
    let first = b.state.listed.arguments;
    let call = calls::begin_call(b, q, count);
    segs(b, node.first(), count, first, levels);
    put_post(b, node, Opcode::Call, 0, u32::from(call.0));
}

// Each argument is a segment of its own, without loops; its start goes to its slot.
#[cycle(expression)]
#[tactic(auto, unfolding(crate::specs::Rules::arguments))]
fn segs(b: &mut Builder<'_>, a: Node<'_>, m: u16, first: u16, levels: u16)
    ensures { Did b.old b.new (over a.entry levels R.arguments b.old.state.code.base b.old.state.code.waiting m a.entry.at first) }
{
    let base = b.state.code.base;
    let waiting = b.state.code.waiting;
    for (i, argument) in (0..m).zip(a.siblings(m)) {
        b.open_segment();
        let inside = Inside {
            looping: false,
            levels,
        };
        expr(b, argument, inside);
        calls::end_argument(b, base, waiting, first.saturating_add(i));
    }
}

// ---- control

#[cycle(expression)]
#[tactic(auto, unfolding(crate::specs::Rules::coalesce))]
fn coalesce(b: &mut Builder<'_>, node: Node<'_>, inside: Inside)
    ensures { Did b.old b.new (lowered_as node.entry inside R.coalesce) }
{
    if node.count() < 2 {
        return b.failed(Refusal::Failed);
    }
    let a = node.first();
    let e = emit_jump(b, Opcode::HandlerPush, 0, 0);
    steps::enter_handler(b);
    expr(b, a, inside);
    steps::leave_handler(b);
    let f = emit_jump(b, Opcode::HandlerPop, 0, 0);
    place_target(b, e);
    expr(b, a.next(), inside);
    place_target(b, f);
    post_instr(b, node);
}

// The third child, or 0.0.
#[cycle(expression)]
#[tactic(auto, unfolding(crate::specs::Rules::alternative))]
fn alt(b: &mut Builder<'_>, node: Node<'_>, inside: Inside)
    ensures { Did b.old b.new
        (over node.entry inside.levels R.alternative node.entry.at
        (next_at (bytes node.entry) (first_at (bytes node.entry) node.entry.at)) inside.looping) }
{
    if node.count() < 3 {
        return interning::constant(b, 0);
    }
    expr(b, node.first().next().next(), inside);
}

// The second child, or the third.
#[cycle(expression)]
#[tactic(auto, unfolding(crate::specs::Rules::conditional))]
fn conditional(b: &mut Builder<'_>, node: Node<'_>, inside: Inside)
    ensures { Did b.old b.new (lowered_as node.entry inside R.conditional) }
{
    if node.count() < 2 {
        return b.failed(Refusal::Failed);
    }
    let a = node.first();
    expr(b, a, inside);
    let e = emit_jump(b, Opcode::JumpIfFalsy, 0, 0);
    expr(b, a.next(), inside);
    let f = emit_jump(b, Opcode::Jump, 0, 0);
    place_target(b, e);
    alt(b, node, inside);
    place_target(b, f);
    post_instr(b, node);
}

// Each statement, and the constant of the list behind the last.
#[cycle(expression)]
#[tactic(auto, unfolding(crate::specs::Rules::statements, crate::specs::Rules::statements_from))]
fn statements(b: &mut Builder<'_>, node: Node<'_>, inside: Inside)
    ensures { Did b.old b.new (lowered_as node.entry inside R.statements) }
{
    for child in node.children() {
        item(b, child, inside);
    }
    interning::constant(b, values::list_constant(node));
}

// A statement of a list: only here is a Return one, elsewhere it is a constant.
#[cycle(expression)]
#[tactic(auto, unfolding(crate::specs::Rules::statement))]
fn item(b: &mut Builder<'_>, node: Node<'_>, inside: Inside)
    ensures { Did b.old b.new (lowered_as node.entry inside R.statement) }
{
    match node.rule() {
        Rule::Return => ret(b, node, inside),
        _ => expr(b, node, inside),
    }
}

// A Return of a statement list.
#[cycle(expression)]
#[tactic(auto, unfolding(crate::specs::Rules::returned, crate::specs::Rules::ret))]
fn ret(b: &mut Builder<'_>, node: Node<'_>, inside: Inside)
    ensures { Did b.old b.new (R.returned (bytes node.entry) inside.levels node.entry.at inside.looping) }
{
    if inside.levels == 0 {
        return b.failed(Refusal::Failed);
    }
    if node.count() == 0 {
        interning::constant(b, 0);
        return put_post(b, node, Opcode::Return, 0, 0);
    }
    expr(b, node.first(), inside.deeper());
    put_post(b, node, Opcode::Return, 0, 0);
}

// counted_loop in the Rust: the count, and the body so often.
#[cycle(expression)]
#[tactic(auto, unfolding(crate::specs::Rules::counted_loop))]
fn repeat(b: &mut Builder<'_>, node: Node<'_>, inside: Inside)
    ensures { Did b.old b.new (lowered_as node.entry inside R.counted_loop) }
{
    flag(b, Flags::HAS_LOOPS);
    if node.count() < 2 {
        return b.failed(Refusal::Failed);
    }
    let a = node.first();
    expr(b, a, inside);
    let e = emit_jump(b, Opcode::LoopBegin, 0, 0);
    steps::operand(b);
    steps::enter_loop(b);
    expr(b, a.next(), inside.a_loop());
    control::close_loop(b, e);
    pop(b, 1);
    steps::leave_loop(b);
    interning::constant(b, values::folded(node, 0));
}

#[cycle(expression)]
#[tactic(auto, unfolding(crate::specs::Rules::for_each))]
fn for_each(b: &mut Builder<'_>, node: Node<'_>, inside: Inside)
    ensures { Did b.old b.new (lowered_as node.entry inside R.for_each) }
{
    flag(b, Flags::HAS_LOOPS);
    not_float_only(b);
    if node.count() < 3 {
        return b.failed(Refusal::Failed);
    }
    let Some(k) = interning::variable(b, node.first()) else {
        return b.failed(Refusal::Failed);
    };
    each(b, node, k, inside);
}

// Behind a ForEach's variable: the array, and the body once for each element.
#[cycle(expression)]
#[tactic(auto, unfolding(crate::specs::Rules::each))]
fn each(b: &mut Builder<'_>, node: Node<'_>, k: VariableIdx, inside: Inside)
    ensures { Did b.old b.new (over node.entry inside.levels R.each node.entry.at (each_next k) inside.looping) }
{
    let array = node.first().next();
    expr(b, array, inside);
    let e = emit_jump(b, Opcode::EachBegin, 0, 0);
    let f = control::each_next(b, k);
    steps::enter_loop(b);
    expr(b, array.next(), inside.a_loop());
    control::close_each(b, e, f);
    steps::leave_loop(b);
    interning::constant(b, values::folded(node, 0));
}
