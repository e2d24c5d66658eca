// The calls that the program takes, and why there is none at the front of an input.
ghost use Rattle.wire.specs.declared.call.DecodeError.TheVariants.{Memory, Unread as NoCall};
ghost use Rattle.std.specs.Prelude.{◌≡◌, Some};
ghost use Rattle.wire.specs.Reasons.{reason, failure};

use std::alloc::AllocError;
use std::error::Error;
use std::fmt;

// One call; a parcel is lent by the bytes that it was decoded from.
#[derive(Drop)]
pub enum Call<'a> {
    File {
        parcel: &'a [u8],
    },
    Interleave {
        columns: Vec<u32>,
        pairs: Vec<(u16, u32)>,
    },
    Read {
        column: u32,
        row: u32,
    },
}

// Why no call can be read at the front of an input.
#[derive(Clone, Copy, PartialEq, Eq, Debug)]
pub enum Unread {
    // the beginning of a call, which lacks so many bytes at least
    CutOff { lacks: usize },
    // no call's letter
    Unknown,
    // a call of more than `MOST_BYTES` bytes, as its head says
    TooLong,
}

impl fmt::Display for Unread {
    ghost output = { λ why. Some (reason why) };

    fn fmt<W: fmt::Write>(&self, f: &mut fmt::Formatter<W>) -> fmt::Result {
        match self {
            Unread::CutOff { lacks } => write!(f, "the call lacks {lacks} bytes or more"),
            Unread::Unknown => write!(f, "no call has this letter"),
            Unread::TooLong => write!(f, "the call is too long"),
        }
    }
}

impl Error for Unread {}

// Why an input was not decoded.
#[derive(Clone, Copy, PartialEq, Eq, Debug)]
pub enum DecodeError {
    Unread(Unread),
    // no memory was left for the columns or pairs
    Memory(AllocError),
}

impl fmt::Display for DecodeError {
    ghost output = { λ e. Some (failure e) };

    fn fmt<W: fmt::Write>(&self, f: &mut fmt::Formatter<W>) -> fmt::Result {
        match self {
            DecodeError::Unread(unread) => write!(f, "{unread}"),
            DecodeError::Memory(_) => write!(f, "out of memory"),
        }
    }
}

impl Error for DecodeError {}

impl From<Unread> for DecodeError {
    ghost from_gives = { λ unread e. e ≡ NoCall unread };

    fn from(unread: Unread) -> DecodeError {
        DecodeError::Unread(unread)
    }
}

impl From<AllocError> for DecodeError {
    ghost from_gives = { λ error e. e ≡ Memory error };

    fn from(error: AllocError) -> DecodeError {
        DecodeError::Memory(error)
    }
}
