// Why nothing is packed, in one line.
use pages::BadList;
use std::alloc::{AllocError, AllocFailed};
use std::{fmt, io};

#[derive(Drop)]
pub enum Problem {
    Usage,
    Arguments(io::Error),
    Budget(String),
    Input(u64, io::Error),
    Line(u64, String),
    NoFile(String),
    File(String, io::Error),
    List(BadList),
    System(io::Error),
}

impl fmt::Display for Problem {
    fn fmt<W: fmt::Write>(&self, f: &mut fmt::Formatter<W>) -> fmt::Result {
        match self {
            Problem::Usage => write!(
                f,
                "usage: pack BUDGET [CARD FILE ..] (without files: sizes on standard input, one a line)"
            ),
            Problem::Budget(text) => write!(f, "the budget is no number of steps: {text:?}"),
            Problem::Arguments(error) => write!(f, "the arguments cannot be read: {error}"),
            Problem::Input(number, error) => write!(f, "line {number} cannot be read: {error}"),
            Problem::Line(number, text) => write!(f, "line {number} is no size: {text:?}"),
            Problem::NoFile(name) => write!(f, "{name:?} is not a file"),
            Problem::File(name, error) => write!(f, "{name:?} cannot be read: {error}"),
            Problem::List(bad) => write!(f, "refused {}: {bad}", bad.number()),
            Problem::System(error) => write!(f, "{error}"),
        }
    }
}

impl From<io::Error> for Problem {
    fn from(error: io::Error) -> Problem {
        Problem::System(error)
    }
}

impl From<AllocError> for Problem {
    fn from(error: AllocError) -> Problem {
        Problem::System(io::Error::from(error))
    }
}

impl<T: Drop> From<AllocFailed<T>> for Problem {
    fn from(error: AllocFailed<T>) -> Problem {
        Problem::from(AllocError::from(error))
    }
}

impl From<BadList> for Problem {
    fn from(bad: BadList) -> Problem {
        Problem::List(bad)
    }
}
