// The subs of DivGuard, each with its number on the card; those of comparisons stand with the rules, in ast. A variant's number is had by `as` alone.
ghost use Rattle.std.specs.Prelude.{◌≡◌};
ghost use Rattle.program.specs.Subs.{divisor_of};

// What a division by a divisor near 0 does with its sign.
#[derive(Clone, Copy, Debug, PartialEq, Eq)]
pub enum Divisor {
    Signed = 0,
    Absolute = 1,
}

impl From<Divisor> for u8 {
    ghost from_gives = { λ d number. number ≡ divisor_of d };

    fn from(d: Divisor) -> u8 {
        d as u8
    }
}
