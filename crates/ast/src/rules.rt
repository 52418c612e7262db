// The rules of operators, and the rule of each operator code by its number.
ghost use Rattle.ast.specs.Meaning.{HasNumber};

use crate::subs::{Comparison, Equality};

// The rules that no other rule looks at.
#[derive(Clone, Copy, Debug, PartialEq, Eq)]
pub enum Plain {
    Array,
    UsesArrays,
    UsesResources,
    Float,
    String,
    Resource,
    This,
    Load,
    Query,
    Compare(Comparison),
    Equal(Equality),
    And,
    Or,
    Coalesce,
    Conditional,
    Statements,
    Loop,
    ForEach,
    Break,
    Continue,
    Assign,
    Bracket,
    Negate,
    Not,
    Add,
    Mul,
    Div,
    HostMath,
    HostMathVolatile,
    Generic,
    Refused,
}

// Return differs in a statement list; member reads, EntityVariable and Pointer differ as an assignment's target.
#[derive(Clone, Copy, Debug, PartialEq, Eq)]
pub enum Rule {
    Return,
    Member,
    Entity,
    Pointer,
    Plain(Plain),
}

// The number of each operator code's rule.
pub const RULES: [u8; 256] = [
    0, 1, 2, 3, 4, 5, 6, 7, 8, 9, 10, 11, 12, 13, 14, 15, 16, 17, 18, 19, 20, 21, 22, 23, 24, 25,
    26, 27, 28, 29, 30, 31, 32, 33, 34, 35, 36, 37, 38, 39, 40, 41, 42, 43, 44, 45, 46, 47, 48, 49,
    50, 51, 0, 0, 0, 0, 0, 0, 0, 0, 0, 0, 0, 0, 52, 52, 52, 52, 52, 52, 52, 52, 52, 52, 52, 52, 52,
    52, 52, 52, 52, 52, 52, 52, 52, 52, 52, 52, 52, 52, 52, 52, 52, 52, 52, 52, 52, 52, 52, 52, 52,
    52, 52, 52, 52, 52, 52, 52, 52, 52, 52, 52, 52, 52, 52, 52, 52, 52, 52, 52, 52, 52, 52, 52, 0,
    0, 0, 0, 0, 0, 0, 0, 0, 0, 0, 0, 0, 0, 0, 0, 0, 0, 0, 0, 0, 0, 0, 0, 0, 0, 0, 0, 0, 0, 0, 0, 0,
    0, 0, 0, 0, 0, 0, 0, 0, 0, 0, 0, 0, 0, 0, 0, 0, 0, 0, 0, 0, 0, 0, 0, 0, 0, 0, 0, 0, 0, 0, 0, 0,
    0, 0, 0, 0, 0, 0, 0, 0, 0, 0, 0, 0, 0, 0, 0, 0, 0, 0, 0, 0, 0, 0, 0, 0, 0, 0, 0, 0, 0, 0, 0, 0,
    0, 0, 0, 0, 0, 0, 0, 0, 0, 0, 0, 0, 0, 0, 0, 0, 0, 0, 0, 0, 0, 0, 0, 0, 0, 0, 0, 0, 0, 0, 0, 0,
    0, 0, 0,
];

// The same, laid out once in memory: a constant is laid out anew wherever it is read.
pub static TABLE: [u8; 256] = RULES;

// The rule of each number: in front that of the unknown codes, behind that of the refused ones.
static BY_NUMBER: [Rule; 53] = [
    Rule::Plain(Plain::Refused),
    Rule::Plain(Plain::Array),
    // ArrayVariable, ExpressionArray; GeometryVariable, MaterialVariable, TextureVariable
    Rule::Plain(Plain::UsesArrays),
    Rule::Plain(Plain::UsesArrays),
    Rule::Plain(Plain::UsesResources),
    Rule::Plain(Plain::UsesResources),
    Rule::Plain(Plain::UsesResources),
    // Float, StringLiteral; Geometry, Material, Texture; This
    Rule::Plain(Plain::Float),
    Rule::Plain(Plain::String),
    Rule::Plain(Plain::Resource),
    Rule::Plain(Plain::Resource),
    Rule::Plain(Plain::Resource),
    Rule::Plain(Plain::This),
    // EntityVariable, TempVariable, ContextVariable; MemberAccessor, QueryFunction
    Rule::Entity,
    Rule::Plain(Plain::Load),
    Rule::Plain(Plain::Load),
    Rule::Member,
    Rule::Plain(Plain::Query),
    // LessThan, LessEqual, GreaterEqual, GreaterThan; LogicalEqual, LogicalNotEqual, LogicalAnd, LogicalOr
    Rule::Plain(Plain::Compare(Comparison::Lt)),
    Rule::Plain(Plain::Compare(Comparison::Le)),
    Rule::Plain(Plain::Compare(Comparison::Ge)),
    Rule::Plain(Plain::Compare(Comparison::Gt)),
    Rule::Plain(Plain::Equal(Equality::Eq)),
    Rule::Plain(Plain::Equal(Equality::Ne)),
    Rule::Plain(Plain::And),
    Rule::Plain(Plain::Or),
    // NullCoalescing, Conditional, Semicolon, Loop, ForEach, Break, Continue, Assignment, Pointer
    Rule::Plain(Plain::Coalesce),
    Rule::Plain(Plain::Conditional),
    Rule::Plain(Plain::Statements),
    Rule::Plain(Plain::Loop),
    Rule::Plain(Plain::ForEach),
    Rule::Plain(Plain::Break),
    Rule::Plain(Plain::Continue),
    Rule::Plain(Plain::Assign),
    Rule::Pointer,
    // LeftBracket, LeftParenthesis; Negate, LogicalNot, Add, Mul, Div, HostMath, HostMathVolatile
    Rule::Plain(Plain::Bracket),
    Rule::Plain(Plain::Bracket),
    Rule::Plain(Plain::Negate),
    Rule::Plain(Plain::Not),
    Rule::Plain(Plain::Add),
    Rule::Plain(Plain::Mul),
    Rule::Plain(Plain::Div),
    Rule::Plain(Plain::HostMath),
    Rule::Plain(Plain::HostMathVolatile),
    // Return; Pi, LeftBrace, RightBrace, RightBracket, RightParenthesis, ConditionalElse, Comma
    Rule::Return,
    Rule::Plain(Plain::Generic),
    Rule::Plain(Plain::Generic),
    Rule::Plain(Plain::Generic),
    Rule::Plain(Plain::Generic),
    Rule::Plain(Plain::Generic),
    Rule::Plain(Plain::Generic),
    Rule::Plain(Plain::Generic),
    Rule::Plain(Plain::Refused),
];

impl From<u8> for Rule {
    ghost from_gives = { HasNumber };

    fn from(number: u8) -> Rule {
        let place = usize::from(number);
        if place < BY_NUMBER.len() {
            return BY_NUMBER[place];
        }
        Rule::Plain(Plain::Refused)
    }
}
