// Answers, and the lines that the program writes of them.
ghost use Rattle.std.specs.Prelude.{◌≡◌, take, IfOk};
ghost use Rattle.wire.specs.Lines.{line_of};
ghost use Rattle.wire.specs.Told.{told};

use denials::Denial;
use std::alloc::{AllocError, Global};

// The answer to a call, or `Halt` where no call can be told.
#[derive(Clone, Copy, PartialEq, Eq, Debug)]
pub enum Answer {
    // the number of the column that was filed
    Filed(u32),
    // the number of the column that was made
    Made(u32),
    // a row was read: so many bytes at the front of the text buffer, which is lent with each call
    Row(usize),
    // the call was denied, by this number and with this detail: two plain numbers, since with a `Denial` here `line` would take
    // fewer answers than it does
    No { number: u8, detail: u64 },
    Halt,
}

impl From<Denial> for Answer {
    ghost from_gives = { λ denial answer. answer ≡ told denial };

    fn from(denial: Denial) -> Answer {
        Answer::No {
            number: denial.number(),
            detail: denial.detail(),
        }
    }
}

// The first `length` bytes of a text, or all of a shorter one.
fn front(text: &[u8], length: usize) -> &[u8]
    ensures { result.now ≡ take length text.now }
{
    text.get(..length).unwrap_or(text)
}

// The line of an answer, a row's text being the front of `text`.
pub fn line(heap: Global, answer: Answer, text: &[u8]) -> Result<Vec<u8>, AllocError>
    ensures { IfOk result (λ v. v.items ≡ line_of answer text.now) }
{
    match answer {
        Answer::Filed(column) => format!(in heap; "filed {column}\n").map(String::into_bytes),
        Answer::Made(column) => format!(in heap; "made {column}\n").map(String::into_bytes),
        Answer::Row(length) => [b"row ".as_slice(), front(text, length), b"\n"].concat(heap),
        Answer::No { number, detail } => format!(in heap; "no {number} {detail}\n").map(
            String::into_bytes,
        ),
        Answer::Halt => Vec::from_slice(heap, b"halt\n"),
    }
}
