// Binary32 numbers by their bits, and posts: scale and offset. The bit patterns stand beside the floats, since no float
// keeps a NaN's payload.
#![tactic(auto)]

ghost use Rattle.std.specs.Prelude.{◌≡◌};
ghost use Rattle.std.specs.Float.{binary32};
ghost use Rattle.std.specs.Float.Ieee.{to_bits};
ghost use Rattle.numeric.specs.PostOp.{patterns, post_of, patterns_of, identity_op, fold_op};

use std::num::{f32_from_bits_with_nan, f32_to_bits_with_nan};

// The bit pattern of a float; a NaN's is 7FC00000. A public name over the library's function.
pub fn bits_of(x: f32) -> u32
    ensures { result ≡ to_bits binary32 x }
{
    f32_to_bits_with_nan(x)
}

// A post by its bit patterns. One type over both kinds of number would be no plainer: each method is one kind's alone.
#[derive(Clone, Copy, Drop)]
pub struct PostBits {
    pub scale: u32,
    pub offset: u32,
}

// A post by its numbers.
#[derive(Clone, Copy, PartialEq, Drop)]
pub struct PostOp {
    pub scale: f32,
    pub offset: f32,
}

impl PostOp {
    pub const IDENTITY: PostOp = PostOp {
        scale: 1.0,
        offset: 0.0,
    };

    // Scale 1.0 with offset 0.0 or -0.0: the identity test, which a rule of the project names.
    #[tactic(auto, unfolding(crate::specs::PostOp::identity_op))]
    pub fn is_identity(self) -> bool
        ensures { result ≡ identity_op self }
    {
        self == PostOp::IDENTITY
    }

    // The constant `raw` with the post folded in, both by their bits.
    #[tactic(auto, unfolding(crate::specs::PostOp::fold_op, crate::specs::PostOp::scaled_op))]
    pub fn fold(self, raw: u32) -> u32
        ensures { result ≡ fold_op self raw }
    {
        if self.is_identity() {
            return raw;
        }
        let x = f32_from_bits_with_nan(raw);
        bits_of(x * self.scale + self.offset)
    }
}

// Each `from`, this and the next, is its trait's.
impl From<PostBits> for PostOp {
    ghost from_gives = { λ bits p. p ≡ post_of (patterns bits) };

    fn from(bits: PostBits) -> PostOp {
        PostOp {
            scale: f32_from_bits_with_nan(bits.scale),
            offset: f32_from_bits_with_nan(bits.offset),
        }
    }
}

// A NaN's pattern is 7FC00000.
impl From<PostOp> for PostBits {
    ghost from_gives = { λ p bits. patterns bits ≡ patterns_of p };

    fn from(p: PostOp) -> PostBits {
        PostBits {
            scale: bits_of(p.scale),
            offset: bits_of(p.offset),
        }
    }
}
