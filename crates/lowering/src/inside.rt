// What a node of the tree is lowered inside of.
ghost use Rattle.std.specs.Prelude.{◌≡◌, true, ◌-◌};

// Whether a loop is open, and how many levels are left. Beside the node, and not in one value with it: a rule without operands takes the node alone.
#[derive(Clone, Copy, Drop)]
pub(crate) struct Inside {
    pub(crate) looping: bool,
    pub(crate) levels: u16,
}

impl Inside {
    // A level deeper.
    pub(crate) fn deeper(self) -> Inside
        ensures { result ≡ record { looping = self.looping; levels = self.levels - 1 } }
    {
        Inside {
            looping: self.looping,
            levels: self.levels.saturating_sub(1),
        }
    }

    // In the body of a loop.
    pub(crate) fn a_loop(self) -> Inside
        ensures { result ≡ record { looping = true; levels = self.levels } }
    {
        Inside {
            looping: true,
            levels: self.levels,
        }
    }
}
