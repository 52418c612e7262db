// The list, read piece by piece.
use std::io::Read;
use std::{fmt, io};

// Why the list cannot be read on: it ends early, or a read fails; or there is no room for the length that it gives. An error of its own, taken by `?`.
#[derive(Clone, Copy)]
pub enum Damage {
    CutOff,
    TooLong(u32),
}

impl fmt::Display for Damage {
    fn fmt<W: fmt::Write>(&self, f: &mut fmt::Formatter<W>) -> fmt::Result {
        match self {
            Damage::CutOff => write!(f, "the list is cut off"),
            Damage::TooLong(length) => {
                write!(
                    f,
                    "the list gives a length of {length}, for which there is no room"
                )
            }
        }
    }
}

impl From<io::Error> for Damage {
    fn from(_error: io::Error) -> Damage {
        Damage::CutOff
    }
}

// The next number.
pub(crate) fn number(list: &mut impl Read) -> Result<u32, Damage> {
    let mut bytes = [0; 4];
    list.read_exact(&mut bytes)?;
    Ok(u32::from_be_bytes(bytes))
}

// The next length and so many bytes. A usize has no `From` of a u32, so `as` widens the length.
pub(crate) fn part<'a>(list: &mut impl Read, room: &'a mut [u8]) -> Result<&'a [u8], Damage> {
    let length = number(list)?;
    let part = room
        .get_mut(..length as usize)
        .ok_or(Damage::TooLong(length))?;
    list.read_exact(part)?;
    Ok(part)
}

// Whether nothing is left.
pub(crate) fn ends(list: &mut impl Read) -> bool {
    list.read_exact(&mut [0]).is_err()
}
