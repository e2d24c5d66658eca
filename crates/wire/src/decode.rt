// Decoding the call at the front of an input.
ghost use Rattle.std.specs.Prelude.{◌≡◌, ℕ, ◌≤◌, List, ◌++◌, length};
ghost use Rattle.wire.specs.Calls.{at_least, measured, extent_of, front, whole, Tells};
ghost use Rattle.wire.specs.Calls.{Call as Asked};
ghost use Rattle.wire.specs.Encoded.{encoded};

use super::call::{Call, DecodeError, Unread};
use super::kind::Kind;
use std::alloc::Global;

// A call has at most so many bytes, letter and fields included.
pub const MOST_BYTES: usize = 65_536;

// That an input has so many bytes at least.
fn at_least(input: &[u8], size: usize) -> Result<(), Unread>
    ensures { result ≡ at_least input.now size }
{
    if input.len() < size {
        return Err(Unread::CutOff {
            lacks: size - input.len(),
        });
    }
    Ok(())
}

// The kind and the size of the call at the front of the input, all of it being there.
fn measured(input: &[u8]) -> Result<(Kind, usize), Unread>
    ensures { result ≡ measured input.now }
{
    at_least(input, 1)?;
    let kind = Kind::try_from(input[0])?;
    at_least(input, kind.head_size())?;
    let size = kind.call_size(input);
    if size > MOST_BYTES {
        return Err(Unread::TooLong);
    }
    at_least(input, size)?;
    Ok((kind, size))
}

// How many bytes the call at the front of the input has, all of them being there.
pub fn extent(input: &[u8]) -> Result<usize, Unread>
    ensures { result ≡ extent_of input.now }
{
    measured(input).map(|(_, size)| size)
}

// The call at the front of the input, and what is left after it. An input that begins with a call's bytes gives back that
// call, and what follows them.
pub fn decode<'a>(heap: Global, input: &'a [u8]) -> Result<(Call<'a>, &'a [u8]), DecodeError>
    ensures front { Tells result (front input.now) }
    ensures inverts { (call : Asked) (rest : List ℕ) → length (encoded call) ≤ 65536 → input.now ≡ encoded call ++ rest → Tells result (whole call rest) }
{
    let (kind, size) = measured(input)?;
    let call = kind.call_in(heap, input)?;
    Ok((call, &input[size..]))
}
