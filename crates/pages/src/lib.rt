// Fewer card pages: up to 32 program images on pages of 4,096 bytes, by a search with a budget. Nothing of Molang stands here.
#![tactic(auto)]

pub mod c;
mod order;
mod search;
mod state;
#[cfg(test)]
mod tests;

ghost use Rattle.std.specs.Prelude.{◌≡◌, ◌-◌, ◌≤◌, length, take, drop, replicate, IfOk, IfErr};
ghost use Rattle.pages.specs.Answer.{REFUSED, needed, small, shown, answer, reason};
ghost use Rattle.pages.specs.Search.{best, steps};

use order::order_of;
use state::{Search, State};
use std::error::Error;
use std::fmt;

// The most images of a list, and the bytes of a page, which are the most of an image.
pub const IMAGES: usize = 32;

pub const PAGE: u16 = 4096;

// Why a list is refused.
#[derive(Clone, Copy, Debug, PartialEq, Eq)]
pub enum BadList {
    TooManyImages,
    ImageTooLarge,
}

impl BadList {
    // The refusal's number, which both have.
    pub fn number(self) -> u8
        ensures { result ≡ REFUSED }
    {
        19
    }
}

impl fmt::Display for BadList {
    fn fmt<W: fmt::Write>(&self, f: &mut fmt::Formatter<W>) -> fmt::Result {
        f.write_str(match self {
            BadList::TooManyImages => "more than 32 images",
            BadList::ImageTooLarge => "an image of more than 4,096 bytes",
        })
    }
}

impl Error for BadList {}

// The page of each image, in list order, and 0 behind the last; how many pages; the steps taken; the pages above the total size divided by a page, rounded up.
#[derive(Clone, Copy, Drop)]
pub struct Packing {
    pub pages: [u8; IMAGES],
    pub opened: u8,
    pub steps: u64,
    pub above: u8,
}

fn is_small(sizes: &[u16]) -> bool
    ensures { result ≡ small sizes.now }
{
    sizes.iter().all(|size| *size <= PAGE)
}

// The total size divided by a page, rounded up.
fn pages_needed(sizes: &[u16]) -> u32
    requires { length sizes.now ≤ 32 }
    ensures { result ≡ needed sizes.now }
{
    let total: u32 = sizes.iter().map(|size| u32::from(*size)).sum();
    total.div_ceil(u32::from(PAGE))
}

// The search from nothing placed: the best packing met, and the steps taken.
fn searched(sizes: &[u16], budget: u64) -> (State, u64)
    requires { length sizes.now ≤ 32 }
    ensures { result ≡ (best sizes.now budget, steps sizes.now budget) }
{
    let mut search = Search::new(order_of(sizes), sizes.len());
    if sizes.is_empty() {
        return (search.best, 0);
    }
    let taken = search.search(0, budget);
    (search.best, taken)
}

// The pages above so many. `as`: what is left of a byte fits one.
fn above(opened: u8, needed: u32) -> u8
    ensures { result ≡ opened - needed }
{
    u32::from(opened).saturating_sub(needed) as u8
}

// The first `n` of the pages, and 0 behind them: filled, since a copy of the first would want C's memcpy, which nothing else here calls.
fn listed(pages: [u8; IMAGES], n: usize) -> [u8; IMAGES]
    requires { n ≤ 32 }
    ensures { (take n result ≡ take n pages) × (drop n result ≡ replicate (32 - n) 0) }
{
    let mut listed = pages;
    listed[n..].fill(0);
    listed
}

// The first packing met with the fewest pages, the start included, in at most `budget` steps; or why the list is refused.
pub fn pack(sizes: &[u16], budget: u64) -> Result<Packing, BadList>
    ensures answer { shown sizes.now result ≡ answer sizes.now budget }
    ensures behind { IfOk result (λ p. drop (length sizes.now) p.pages ≡ replicate (32 - length sizes.now) 0) }
    ensures reason { IfErr result (λ why. why ≡ reason sizes.now) }
{
    if IMAGES < sizes.len() {
        return Err(BadList::TooManyImages);
    }
    if !is_small(sizes) {
        return Err(BadList::ImageTooLarge);
    }
    let (best, steps) = searched(sizes, budget);
    let pages = listed(best.pages, sizes.len());
    Ok(Packing {
        pages,
        opened: best.opened,
        steps,
        above: above(best.opened, pages_needed(sizes)),
    })
}
