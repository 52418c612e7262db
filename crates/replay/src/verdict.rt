// The generator's answer to the next tree of the list, held against the answer that stands there.
use crate::list;
use crate::list::Damage;
use answers::refusals::Refusal;
use std::fmt;
use std::io::Read;

// What the generator answers otherwise than the list: three cases, each with what was got and what stands there.
#[derive(Clone, Copy)]
pub enum Difference {
    Refusal { got: u32, expected: u32 },
    Length { got: usize, expected: usize },
    Byte { at: usize, got: u8, expected: u8 },
}

impl fmt::Display for Difference {
    fn fmt<W: fmt::Write>(&self, f: &mut fmt::Formatter<W>) -> fmt::Result {
        match self {
            Self::Refusal { got, expected } => write!(f, "refusal {got}, expected {expected}"),
            Self::Length { got, expected } => write!(f, "length {got}, expected {expected}"),
            Self::Byte { at, got, expected } => write!(
                f,
                "byte {at} is {got}, expected {expected}"
            ),
        }
    }
}

// The difference at the next tree, if there is one.
pub(crate) fn next(list: &mut impl Read) -> Result<Option<Difference>, Damage> {
    let mut room = bench::input();
    let tree = list::part(list, &mut room)?;
    let refusal = list::number(list)?;
    against(list, tree, refusal)
}

// The same, where the image that stands there comes next. A function of its own: in one with the tree's room the image's was cleared twice.
fn against(list: &mut impl Read, tree: &[u8], refusal: u32) -> Result<Option<Difference>, Damage> {
    let mut room = bench::output();
    let image = list::part(list, &mut room)?;
    Ok(compared(tree, refusal, image))
}

// Of refusal, length and every byte the first that differs. The refusal is a number: what the list has need be no refusal's.
fn compared(tree: &[u8], refusal: u32, image: &[u8]) -> Option<Difference> {
    let mut out = bench::output();
    let answer = bench::answer(tree, &mut out);
    let got = refusal_of(answer);
    if got != refusal {
        return Some(Difference::Refusal {
            got,
            expected: refusal,
        });
    }
    let got = answer.unwrap_or(0);
    if got != image.len() {
        return Some(Difference::Length {
            got,
            expected: image.len(),
        });
    }
    byte(&out, image)
}

// The refusal's number; 0 where the tree is accepted. A number, as the list has it.
fn refusal_of(answer: Result<usize, Refusal>) -> u32 {
    match answer {
        Ok(_) => 0,
        Err(why) => u32::from(u8::from(why)),
    }
}

// The first byte of `image` that is another one in `out`.
fn byte(out: &[u8], image: &[u8]) -> Option<Difference> {
    let mut pairs = out.iter().copied().zip(image.iter().copied()).enumerate();
    let (at, (got, expected)) = pairs.find(|(_, (got, expected))| got != expected)?;
    Some(Difference::Byte { at, got, expected })
}
