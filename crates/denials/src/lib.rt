// Why a call is denied: a number, which says what is wrong, and a detail, which says where or how much.
#![tactic(auto)]

ghost use Rattle.std.specs.Prelude.{◌≡◌, Some};
ghost use Rattle.denials.specs.Said.{said, number_of, detail_of};
ghost use Rattle.denials.specs.Worded.{words, sentence};

use std::error::Error;
use std::fmt;

#[derive(Clone, Copy, PartialEq, Eq, Debug)]
pub enum Denial {
    // the parcel ends inside an item, or has bytes left: where that item or the rest starts
    Ends(usize),
    // a node's format is unknown
    Unknown(usize),
    // a node has a wrong child count, a kind that its parent does not take or a forbidden mask, or passes a limit
    Misplaced(usize),
    // a node is unsound
    Unsound(usize),
    // so many sources or pairs: none, or too many
    Count(usize),
    // the source at this position is unlike source 0
    Unlike(usize),
    // this pair, or this row, is outside
    Outside(usize),
    // a total that no 32-bit offset holds
    Total(u64),
    // more rows than the run ends' type can count
    Rows(usize),
    // the text is longer than its buffer, which has so many bytes
    Text(usize),
    // there is no such column
    NoColumn(u32),
    // there is no such data buffer
    Missing(usize),
    // this pool has too few entries
    Full(usize),
}

impl Denial {
    pub fn number(self) -> u8
        ensures { result ≡ number_of (said self) }
    {
        match self {
            Denial::Ends(_) => 1,
            Denial::Unknown(_) => 2,
            Denial::Misplaced(_) => 3,
            Denial::Unsound(_) => 4,
            Denial::Count(_) => 5,
            Denial::Unlike(_) => 6,
            Denial::Outside(_) => 7,
            Denial::Total(_) => 8,
            Denial::Rows(_) => 9,
            Denial::Text(_) => 10,
            Denial::NoColumn(_) => 11,
            Denial::Missing(_) => 12,
            Denial::Full(_) => 13,
        }
    }

    // `as`, since `u64` has no `From<usize>`.
    pub fn detail(self) -> u64
        ensures { result ≡ detail_of (said self) }
    {
        match self {
            Denial::Ends(n)
            | Denial::Unknown(n)
            | Denial::Misplaced(n)
            | Denial::Unsound(n)
            | Denial::Count(n)
            | Denial::Unlike(n)
            | Denial::Outside(n)
            | Denial::Rows(n)
            | Denial::Text(n)
            | Denial::Missing(n)
            | Denial::Full(n) => n as u64,
            Denial::Total(total) => total,
            Denial::NoColumn(column) => u64::from(column),
        }
    }

    // What is wrong, in words that end where the detail stands.
    fn words(self) -> &'static str
        ensures { result.now ≡ words self }
    {
        match self {
            Denial::Ends(_) => "the parcel ends inside an item, or has bytes left, from byte ",
            Denial::Unknown(_) => "the format is unknown, of node ",
            Denial::Misplaced(_) =>
                "the child count, kind or mask is wrong, or a limit is passed, at node ",
            Denial::Unsound(_) => "the column is unsound, at node ",
            Denial::Count(_) => "no source, or too many sources or pairs: ",
            Denial::Unlike(_) => "a source has another type than source 0, at position ",
            Denial::Outside(_) => "outside is the pair or row ",
            Denial::Total(_) => "an offset of 32 bits cannot hold the total ",
            Denial::Rows(_) => "the run ends cannot count so many rows: ",
            Denial::Text(_) => "the text is longer than its buffer, of bytes ",
            Denial::NoColumn(_) => "there is no column ",
            Denial::Missing(_) => "there is no data buffer ",
            Denial::Full(_) => "too few entries are left in pool ",
        }
    }
}

impl fmt::Display for Denial {
    ghost output = { λ d. Some (sentence d) };

    fn fmt<W: fmt::Write>(&self, f: &mut fmt::Formatter<W>) -> fmt::Result {
        let words = self.words();
        let detail = self.detail();
        write!(f, "{words}{detail}")
    }
}

impl Error for Denial {}
