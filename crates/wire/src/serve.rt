// Serving calls from an input, one after another, a line for each.
ghost use Rattle.std.specs.Prelude.{◌≤◌, take, IfOk};
ghost use Rattle.wire.specs.Calls.{OneCall};

use super::answer::{Answer, line};
use super::call::{Call, DecodeError, Unread};
use super::decode::{MOST_BYTES, decode, extent};
use std::alloc::Global;
use std::io;
use std::io::{Read, Write};

// What answers calls.
pub trait Service {
    // The answer to a call, and at the front of `text` a row's text where it reads one. `Halt` says that calls of this
    // kind are not served.
    fn answer(&mut self, call: &Call<'_>, text: &mut [u8]) -> Answer;
}

// Reads the bytes of one call to the front of `held`, and no more; answers how many it has read when the call is whole,
// when no call begins so, or when the input ends. The bytes are an array, since so the limit of a call stands in the type.
pub fn read_call<R: Read>(input: &mut R, held: &mut [u8; MOST_BYTES]) -> io::Result<usize>
    ensures { IfOk result (λ n. (n ≤ 65536) × OneCall (take n held.new)) }
{
    let mut filled = 0;
    while let Err(Unread::CutOff { lacks }) = extent(&held[..filled]) {
        let got = input.read(&mut held[filled..filled + lacks])?;
        if got == 0 {
            break;
        }
        filled += got;
    }
    Ok(filled)
}

// Serves calls until one halts it or the input ends between two calls. Each answer's line is written before the next call
// is read, and `Halt` ends the program with its own line.
pub fn serve<R: Read, W: Write, S: Service>(
    heap: Global,
    input: &mut R,
    output: &mut W,
    service: &mut S,
    text: &mut [u8],
) -> io::Result<()> {
    let mut held = [0u8; MOST_BYTES];
    // no bound on what a reader gives is known: a `loop` would be no plainer, since it needs a measure
    for _ in 0..u64::MAX {
        let filled = read_call(input, &mut held)?;
        if filled == 0 {
            return Ok(());
        }
        let answer = match decode(heap, &held[..filled]) {
            Ok((call, _)) => service.answer(&call, text),
            Err(DecodeError::Unread(_)) => Answer::Halt,
            Err(DecodeError::Memory(error)) => return Err(error.into()),
        };
        let written = line(heap, answer, text)?;
        output.write_all(written.as_slice())?;
        output.flush()?;
        if answer == Answer::Halt {
            return Ok(());
        }
    }
    Ok(())
}
