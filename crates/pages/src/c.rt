// The answer as one struct of C's layout: crate codegen_c exports the function, and include/molang.h says the same to C.
ghost use Rattle.std.specs.Prelude.{◌≡◌, ◌-◌, drop, replicate};
ghost use Rattle.pages.specs.Answer.{answer};
ghost use Rattle.pages.specs.ForC.{listed, told};

use crate::{IMAGES, pack};

// The refusal's number, or 0; else as `Packing`, and all 0 where the list is refused.
#[repr(C)]
#[derive(Clone, Copy, Drop)]
pub struct PackingForC {
    pub steps: u64,
    pub pages: [u8; IMAGES],
    pub refusal: u8,
    pub opened: u8,
    pub above: u8,
}

#[tactic(auto, unfolding(crate::specs::ForC::told, crate::specs::Answer::shown, crate::specs::Answer::refused))]
pub fn molang_pack(sizes: &[u16], budget: u64) -> PackingForC
    ensures answer { told sizes.now result ≡ answer sizes.now budget }
    ensures behind { drop (listed sizes.now result) result.pages ≡ replicate (32 - listed sizes.now result) 0 }
{
    match pack(sizes, budget) {
        Ok(p) => {
            let pages = p.pages;
            PackingForC {
                steps: p.steps,
                pages,
                refusal: 0,
                opened: p.opened,
                above: p.above,
            }
        }
        Err(bad) => PackingForC {
            steps: 0,
            pages: [0; IMAGES],
            refusal: bad.number(),
            opened: 0,
            above: 0,
        },
    }
}
