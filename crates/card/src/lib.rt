// The program image, written from the lent workspace, and its answer.
#![tactic(auto)]

mod body;
mod entries;
mod fields;
mod measure;

ghost use Rattle.std.specs.Prelude.{◌≡◌, length};
ghost use Rattle.card.specs.Image.{image_of, laid, answer_of};
ghost use Rattle.card.specs.Lowered.{of_parts};

use answers::refusals::Refusal;
use fields::Writer;
use program::{Depths, Flags};
use workspace::counts::{Listed, Pools};

// How many entries each region holds, and the closing fields; `posts` without slot 0.
#[derive(Clone, Copy, Drop)]
pub struct Sections {
    pub code: u16,
    pub finished: u16,
    pub pools: Pools,
    pub listed: Listed,
    pub depths: Depths,
    pub flags: Flags,
}

// What is written: the tree image, for its texts, the lent workspace, and how much of it.
#[derive(Clone, Copy, Drop)]
pub(crate) struct Lowered<'a> {
    pub(crate) tree: &'a [u8],
    pub(crate) ws: &'a [u32],
    pub(crate) sections: Sections,
}

// The image's first byte, the bytes up to the first section, and those of the closing fields.
const VERSION: u8 = 1;

const HEADER: usize = 5;

const CLOSING: usize = 9;

impl Lowered<'_> {
    // The image, where it has its place in `out`; its length. `as`, since a usize has no `From` into a u32.
    #[tactic(auto, using(crate::proofs::Whole::left, crate::proofs::Starts::total, crate::proofs::Starts::closing_is, crate::proofs::Whole::image_length,))]
    fn image(self, out: &mut [u8]) -> usize
        ensures { (out.new ≡ laid (of_parts image_of self.entry) out.old) × (result ≡ length (of_parts image_of self.entry)) }
    {
        let s = self.sums();
        let n = HEADER + s.code + CLOSING;
        let long = n > out.len();
        if long {
            return n;
        }
        let mut w = Writer { out, at: 0 };
        w.put(VERSION);
        w.put(((n - HEADER) % 4294967296) as u32);
        self.body(s, n - CLOSING, &mut w);
        n
    }
}

// The same; its length, or the refusal where the image has no place.
#[tactic(auto, unfolding(crate::specs::Image::answer_of), using(std::proofs::lemmas::Bool::Decides::nat_tests))]
pub fn finish(tree: &[u8], ws: &[u32], c: Sections, out: &mut [u8]) -> Result<usize, Refusal>
    ensures { (result ≡ answer_of (image_of tree.now ws.now c) out.old)
        × (out.new ≡ laid (image_of tree.now ws.now c) out.old) }
{
    let room = out.len();
    let lowered = Lowered {
        tree,
        ws,
        sections: c,
    };
    let n = lowered.image(out);
    let long = n > room;
    if long {
        return Err(Refusal::SmallOutput);
    }
    Ok(n)
}
