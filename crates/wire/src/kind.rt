// The kinds of calls: what their heads tell, and what their bodies hold.
ghost use Rattle.std.specs.Prelude.{◌≡◌, ℕ, ◌+◌, ◌*◌, ◌/◌, ◌≤◌, length, take, IfOk, map};
ghost use Rattle.std.specs.Simd.{first_chunks};
ghost use Rattle.wire.specs.Calls.{u16_at, u32_at, pair_at, kind_of, head_size, call_size, call_in, meant};

use super::call::{Call, Unread};
use std::alloc::{AllocError, Global};

// A kind of call, by its letter.
#[derive(Clone, Copy, PartialEq, Eq, Debug)]
pub(crate) enum Kind {
    File,
    Interleave,
    Read,
}

// The number of 16 bits that begins at byte `at`, most significant first. A trait for the two widths would be longer than the
// two functions.
fn u16_at(input: &[u8], at: usize) -> u16
    requires { at + 2 ≤ length input.now }
    ensures { result ≡ u16_at input.now at }
{
    u16::from_be_bytes(input[at..at + 2].try_into().unwrap())
}

// The number of 32 bits that begins at byte `at`, most significant first. Where it is a size it is cast, since `usize` has no
// `From<u32>`.
fn u32_at(input: &[u8], at: usize) -> u32
    requires { at + 4 ≤ length input.now }
    ensures { result ≡ u32_at input.now at }
{
    u32::from_be_bytes(input[at..at + 4].try_into().unwrap())
}

// The column numbers that fill these bytes.
fn columns_in(heap: Global, bytes: &[u8]) -> Result<Vec<u32>, AllocError>
    ensures { IfOk result (λ v. v.items ≡ map (λ entry. u32_at entry 0) (first_chunks 4 (length bytes.now / 4) bytes.now)) }
{
    let (entries, _) = bytes.as_chunks::<4>();
    entries
        .iter()
        .map(|entry| u32::from_be_bytes(*entry))
        .collect(heap)
}

// The pairs that fill these bytes. One generic function for columns and pairs would be no plainer: these two lines, and clauses
// on the closure that it is given.
fn pairs_in(heap: Global, bytes: &[u8]) -> Result<Vec<(u16, u32)>, AllocError>
    ensures { IfOk result (λ v. v.items ≡ map (λ entry. pair_at entry 0) (first_chunks 6 (length bytes.now / 6) bytes.now)) }
{
    let (entries, _) = bytes.as_chunks::<6>();
    entries
        .iter()
        .map(|entry| (u16_at(entry, 0), u32_at(entry, 2)))
        .collect(heap)
}

impl TryFrom<u8> for Kind {
    type Error = Unread;

    ghost try_from_gives = { λ letter r. r ≡ kind_of letter };

    fn try_from(letter: u8) -> Result<Kind, Unread> {
        match letter {
            b'F' => Ok(Kind::File),
            b'I' => Ok(Kind::Interleave),
            b'R' => Ok(Kind::Read),
            _ => Err(Unread::Unknown),
        }
    }
}

impl Kind {
    // How many bytes tell the size of a call, from its letter on.
    pub(crate) fn head_size(self) -> usize
        ensures { result ≡ head_size self }
    {
        match self {
            Kind::File => 5,
            Kind::Interleave => 7,
            Kind::Read => 9,
        }
    }

    // The size of the call whose head begins the input.
    pub(crate) fn call_size(self, input: &[u8]) -> usize
        requires { head_size self ≤ length input.now }
        ensures { result ≡ call_size self input.now }
    {
        match self {
            Kind::File => 5 + u32_at(input, 1) as usize,
            Kind::Interleave => 7
                + 4 * usize::from(u16_at(input, 1))
                + 6 * (u32_at(input, 3) as usize),
            Kind::Read => 9,
        }
    }

    // The call at the front of the input, all of it being there.
    pub(crate) fn call_in<'a>(self, heap: Global, input: &'a [u8]) -> Result<Call<'a>, AllocError>
        requires head { head_size self ≤ length input.now }
        requires body { call_size self input.now ≤ length input.now }
        ensures { IfOk result (λ c. meant c ≡ call_in self input.now) }
    {
        match self {
            Kind::File => Ok(Call::File {
                parcel: &input[5..self.call_size(input)],
            }),
            Kind::Interleave => {
                let pairs = 7 + 4 * usize::from(u16_at(input, 1));
                Ok(Call::Interleave {
                    columns: columns_in(heap, &input[7..pairs])?,
                    pairs: pairs_in(heap, &input[pairs..self.call_size(input)])?,
                })
            }
            Kind::Read => Ok(Call::Read {
                column: u32_at(input, 1),
                row: u32_at(input, 5),
            }),
        }
    }
}
