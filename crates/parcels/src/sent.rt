// How a data buffer is sent.
ghost use Rattle.std.specs.Prelude.{◌≡◌, ◌<◌, ◌≤◌, ◌^◌, length, Some, None};
ghost use Rattle.parcels.specs.Sents.{SentSo, size_sent};

use crate::items::length_of;

// The bit of a length that says that what follows it is the number of a data buffer, and not its bytes.
const NAMED: usize = 1 << 31;

// So many bytes that follow, or the number of a data buffer that was shelved before.
#[derive(Clone, Copy, PartialEq, Eq, Debug)]
pub enum Sent {
    Brought(usize),
    Named(usize),
}

impl Sent {
    // How the data buffer at the front of these bytes is sent.
    pub fn read(ahead: &[u8]) -> Option<Sent>
        ensures { elim result [
          | Some x ↦ (4 ≤ length ahead.now) × SentSo ahead.now x
          | None ↦ length ahead.now < 4
        ] }
    {
        let length = length_of(ahead)?;
        Some(if length < NAMED {
            Sent::Brought(length)
        } else {
            Sent::Named(length - NAMED)
        })
    }

    // The bytes that it takes, its length among them.
    pub fn size(self) -> usize
        requires { size_sent self < 2 ^ 64 }
        ensures { result ≡ size_sent self }
    {
        match self {
            Sent::Brought(length) => 4 + length,
            Sent::Named(_) => 4,
        }
    }
}
