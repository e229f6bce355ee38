// Why a command cannot go on, and why a file cannot be used. Each is told whole, however long a name in it is.
use std::alloc::AllocError;
use std::error::Error;
use std::{fmt, io};
use vocabulary::Fault;

// Why a command fails.
#[derive(Debug, Drop)]
pub enum Failure<'a> {
    Usage(&'static str),
    Unread(&'a str, Unheld),
    Refused(&'static str, &'a str, Fault),
    NoMessage(usize),
    Output(io::Error),
    Memory(AllocError),
}

impl<'a> Error for Failure<'a> {}

impl<'a> From<io::Error> for Failure<'a> {
    fn from(error: io::Error) -> Failure<'a> {
        Failure::Output(error)
    }
}

impl<'a> From<AllocError> for Failure<'a> {
    fn from(error: AllocError) -> Failure<'a> {
        Failure::Memory(error)
    }
}

impl<'a> fmt::Display for Failure<'a> {
    fn fmt<W: fmt::Write>(&self, f: &mut fmt::Formatter<W>) -> fmt::Result {
        match self {
            Failure::Usage(what) => write!(f, "{what}"),
            Failure::Unread(path, reason) => write!(f, "{path}: {reason}"),
            Failure::Refused(kind, name, fault) => write!(f, "{kind} {name}: {fault}"),
            Failure::NoMessage(n) => write!(f, "{n} of the files hold no message, see above"),
            Failure::Output(error) => write!(f, "{error}"),
            Failure::Memory(error) => write!(f, "{error}"),
        }
    }
}

// Why a file cannot be used.
#[derive(Debug, Drop)]
pub enum Unheld {
    Unreadable(io::Error),
    OddLength(usize),
}

impl Error for Unheld {}

impl fmt::Display for Unheld {
    fn fmt<W: fmt::Write>(&self, f: &mut fmt::Formatter<W>) -> fmt::Result {
        match self {
            Unheld::Unreadable(error) => write!(f, "cannot be read: {error}"),
            Unheld::OddLength(len) => write!(
                f,
                "is no recording: words are pairs of bytes, and it has {len} bytes"
            ),
        }
    }
}
