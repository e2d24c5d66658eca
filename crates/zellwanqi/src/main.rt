// The program: calls on standard input, a line for each on standard output.
#![tactic(auto)]

use std::io;
use wire::answer::Answer;
use wire::call::Call;
use wire::serve::{Service, serve};

// `read` writes a row's text into a buffer of so many bytes.
const TEXT_BYTES: usize = 4_096;

// No kind of call is served yet.
#[derive(Drop)]
struct Unserved;

impl Service for Unserved {
    fn answer(&mut self, _call: &Call<'_>, _text: &mut [u8]) -> Answer {
        Answer::Halt
    }
}

fn main(rt: HostRuntime) -> io::Result<()> {
    let mut text = [0u8; TEXT_BYTES];
    serve(
        rt.alloc(),
        &mut rt.stdin(),
        &mut rt.stdout(),
        &mut Unserved,
        &mut text,
    )
}
