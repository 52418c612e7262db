// What a comparison and an equality compare by, each with its number as the sub of an instruction. A variant's number is had by `as` alone.
ghost use Rattle.std.specs.Prelude.{◌≡◌};
ghost use Rattle.ast.specs.Subs.{comparison_of, equality_of};

#[derive(Clone, Copy, Debug, PartialEq, Eq)]
pub enum Comparison {
    Lt = 0,
    Le = 1,
    Ge = 2,
    Gt = 3,
}

impl From<Comparison> for u8 {
    ghost from_gives = { λ c number. number ≡ comparison_of c };

    fn from(c: Comparison) -> u8 {
        c as u8
    }
}

#[derive(Clone, Copy, Debug, PartialEq, Eq)]
pub enum Equality {
    Eq = 0,
    Ne = 1,
}

impl From<Equality> for u8 {
    ghost from_gives = { λ e number. number ≡ equality_of e };

    fn from(e: Equality) -> u8 {
        e as u8
    }
}
