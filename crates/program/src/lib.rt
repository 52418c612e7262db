// The kinds of index, each a type of its own, with the constants that stand with them; opcodes, subs, flags, and which opcodes have a target.
#![tactic(auto)]

pub mod opcodes;
pub mod subs;
pub mod targets;

ghost use Rattle.std.specs.Prelude.{◌≡◌};
ghost use Rattle.program.specs.Depths.{counts_of};
ghost use Rattle.program.specs.Kinds.{in_float_loop};

#[derive(Clone, Copy, Drop)]
pub struct ConstIdx(pub u32);

#[derive(Clone, Copy, Drop)]
pub struct HashIdx(pub u32);

#[derive(Clone, Copy, Drop)]
pub struct NameIdx(pub u16);

#[derive(Clone, Copy, Drop)]
pub struct TempIdx(pub u16);

#[derive(Clone, Copy, Drop)]
pub struct MemberIdx(pub u16);

#[derive(Clone, Copy, Drop)]
pub struct StoreIdx(pub u16);

#[derive(Clone, Copy, Drop)]
pub struct CallIdx(pub u16);

#[derive(Clone, Copy, Drop)]
pub struct PostIdx(pub u16);

impl PostIdx {
    // The identity: the plain instruction form.
    pub const PLAIN: PostIdx = PostIdx(0);
}

// How deep a program's operand stack, loops and handlers get.
#[derive(Clone, Copy, Drop)]
pub struct Depths {
    pub stack: u16,
    pub loops: u16,
    pub handlers: u16,
}

impl Depths {
    // Nothing is open.
    pub const NOTHING_OPEN: Depths = Depths {
        stack: 0,
        loops: 0,
        handlers: 0,
    };

    // The deepest that the float loop holds.
    pub const FLOAT_LOOP: Depths = Depths {
        stack: 16,
        loops: 4,
        handlers: 4,
    };

    // The most temps that the float loop holds.
    pub const TEMPS: u16 = 8;

    // Whether a program of these depths, with so many temps, can run on the float loop.
    #[tactic(auto, unfolding(crate::specs::Kinds::in_float_loop))]
    pub fn in_float_loop(self, temps: u16) -> bool
        ensures { result ≡ in_float_loop (counts_of self) temps }
    {
        let most = Depths::FLOAT_LOOP;
        self.stack <= most.stack
            && self.loops <= most.loops
            && self.handlers <= most.handlers
            && temps <= Depths::TEMPS
    }
}

// A program's flags, and whether it starts on the float loop. By their bits: the card has them as one number, and several at once.
#[derive(Clone, Copy, Drop)]
pub struct Flags {
    pub bits: u16,
    pub float_loop: bool,
}

impl Flags {
    pub const FLOAT_ONLY: u16 = 1;

    pub const READS_ACTOR_VARS: u16 = 2;

    pub const USES_TEMPS: u16 = 4;

    pub const READS_CONTEXT: u16 = 8;

    pub const USES_MEMBERS: u16 = 16;

    pub const HAS_ASSIGNMENT: u16 = 32;

    pub const HAS_LOOPS: u16 = 64;

    pub const USES_ARROW: u16 = 128;

    pub const USES_QUERIES: u16 = 256;

    pub const USES_RANDOM: u16 = 512;

    pub const USES_RANDOM_OP: u16 = 1024;

    // Both bits of a volatile host function.
    pub const RANDOM: u16 = 1536;

    // All bits but FLOAT_ONLY.
    pub const NOT_FLOAT: u16 = 2046;
}
