// The tree image: its header, the operator codes, and the rule of each.
#![tactic(auto)]

pub mod header;
pub mod kinds;
pub mod operators;
pub mod rules;
pub mod subs;

ghost use Rattle.std.specs.Prelude.{◌≡◌, get_or};
ghost use Rattle.ast.specs.Rules.{rule_of, rule_at};
ghost use Rattle.ast.specs.Meaning.{meaning};

use rules::Rule;

// The rule of an operator code; an unknown one is refused as well.
#[tactic(auto, unfolding(crate::specs::Rules::rule_at))]
pub fn rule(op: u8) -> Rule
    ensures { meaning result ≡ rule_at op }
{
    Rule::from(rule_number(op))
}

// The number of an operator code's rule: 1 to 51, 52 for a refusal, 0 where the code is unknown. Public, and of any byte, as the table is.
pub fn rule_number(op: u8) -> u8
    ensures { result ≡ rule_of op }
{
    rule_in(&rules::TABLE, op)
}

// The number by a table that is lent. Public, and of any byte.
pub fn rule_in(table: &[u8; 256], op: u8) -> u8
    ensures { result ≡ get_or table.now op 0 }
{
    table[usize::from(op)]
}
