// The refusals, each its question's: the number of each, and its text.
ghost use Rattle.std.specs.Prelude.{◌≡◌, MatchResult};
ghost use Rattle.answers.specs.Refusals.{number_of, NoRefusal, bytes, text_of, laid, taken};

use std::error::Error;
use std::fmt;

// The number of an answer that refuses nothing. A number of its own, since what refuses nothing is no `Refusal`.
pub const ACCEPTED: u8 = 0;

#[derive(Clone, Copy, Debug, PartialEq, Eq)]
pub enum Refusal {
    SmallWorkspace = 1,
    NoTreeImage = 2,
    Damaged = 3,
    TooDeep = 4,
    UsesArrays = 5,
    UsesResources = 6,
    Failed = 7,
    WriteToOtherMob = 8,
    SmallOutput = 9,
}

impl Refusal {
    // What is said of the refusal to people.
    pub fn text(self) -> &'static str
        ensures { result.now ≡ text_of (number_of self) }
    {
        match self {
            Refusal::SmallWorkspace => "the workspace has fewer than 16,384 words",
            Refusal::NoTreeImage => {
                "not a tree image, which has 5 to 6,144 bytes, begins with the byte 1 and gives its true length"
            }
            Refusal::Damaged => {
                "a setting, an operator code, a payload kind or a node's length is wrong, or something is left over"
            }
            Refusal::TooDeep => "a node stands deeper than level 31",
            Refusal::UsesArrays => "the expression uses arrays",
            Refusal::UsesResources => "the expression uses resources",
            Refusal::Failed => "an operator has the wrong operands or payload, or has no bytecode",
            Refusal::WriteToOtherMob => "an assignment writes to another mob",
            Refusal::SmallOutput => "the program image is longer than the output",
        }
    }
}

// The number of the question. A variant's number is had by `as` alone.
impl From<Refusal> for u8 {
    ghost from_gives = { λ why number. number ≡ number_of why };

    fn from(why: Refusal) -> u8 {
        why as u8
    }
}

impl fmt::Display for Refusal {
    fn fmt<W: fmt::Write>(&self, f: &mut fmt::Formatter<W>) -> fmt::Result {
        f.write_str(self.text())
    }
}

impl Error for Refusal {}

// A number that is no refusal's. A type of its own: one for all three would let a byte of one stand for another's.
#[derive(Clone, Copy, Debug, PartialEq, Eq)]
pub struct UnknownRefusal(pub u8);

impl TryFrom<u8> for Refusal {
    type Error = UnknownRefusal;

    ghost try_from_gives = { λ number r. MatchResult r (λ why. number_of why ≡ number) (λ e. (e.0 ≡ number) × NoRefusal number) };

    fn try_from(number: u8) -> Result<Self, UnknownRefusal> {
        match number {
            1 => Ok(Refusal::SmallWorkspace),
            2 => Ok(Refusal::NoTreeImage),
            3 => Ok(Refusal::Damaged),
            4 => Ok(Refusal::TooDeep),
            5 => Ok(Refusal::UsesArrays),
            6 => Ok(Refusal::UsesResources),
            7 => Ok(Refusal::Failed),
            8 => Ok(Refusal::WriteToOtherMob),
            9 => Ok(Refusal::SmallOutput),
            _ => Err(UnknownRefusal(number)),
        }
    }
}

// The text of a number at the start of `out`, if it has the room; how many bytes that is. A number that is no answer's has no text.
// Public, and takes any byte.
pub fn put_text(number: u8, out: &mut [u8]) -> usize
    ensures { (out.new ≡ laid (text_of number) out.old) × (result ≡ taken (text_of number) out.old) }
{
    if number == ACCEPTED {
        return put(b"accepted", out);
    }
    match Refusal::try_from(number) {
        Ok(why) => put(why.text().as_bytes(), out),
        Err(_) => put(b"", out),
    }
}

fn put(text: &[u8], out: &mut [u8]) -> usize
    ensures { (out.new ≡ laid text.now out.old) × (result ≡ taken text.now out.old) }
{
    if text.len() <= out.len() {
        out[..text.len()].copy_from_slice(text);
        return text.len();
    }
    0
}
