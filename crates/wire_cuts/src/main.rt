// Serves a stream of calls, cut at every byte of it, with a stand-in that answers by what a call holds.
#![tactic(auto)]

use std::alloc::{AllocError, Global};
use std::io::Read;
use std::{fmt, io};
use wire::answer::Answer;
use wire::call::{Call, Unread};
use wire::decode::extent;
use wire::serve::{Service, serve};

// Answers each call by its fields, spelled out.
#[derive(Drop)]
struct Speller {
    heap: Global,
}

impl Speller {
    fn spelled(&self, call: &Call<'_>) -> Result<String, AllocError> {
        match call {
            Call::File { parcel } => format!(in self.heap; "file {parcel:?}"),
            Call::Interleave { columns, pairs } => format!(in self.heap;
                "interleave {columns:?} {pairs:?}"
            ),
            Call::Read { column, row } => format!(in self.heap; "read {column} {row}"),
        }
    }
}

impl Service for Speller {
    fn answer(&mut self, call: &Call<'_>, text: &mut [u8]) -> Answer {
        let Ok(spelled) = self.spelled(call) else {
            return Answer::Halt;
        };
        let n = spelled.len().min(text.len());
        text[..n].copy_from_slice(&spelled.as_bytes()[..n]);
        Answer::Row(n)
    }
}

// A reader that gives one byte at a time, as a slow pipe may.
#[derive(Drop)]
struct Slow<'a> {
    rest: &'a [u8],
}

impl Read for Slow<'_> {
    fn read(&mut self, buf: &mut [u8]) -> io::Result<usize> {
        let n = buf.len().min(1);
        self.rest.read(&mut buf[..n])
    }
}

fn answered<R: Read>(heap: Global, input: &mut R) -> io::Result<Vec<u8>> {
    let mut text = [0u8; 256];
    let mut lines = Vec::new(heap);
    serve(heap, input, &mut lines, &mut Speller { heap }, &mut text)?;
    Ok(lines)
}

// The lines for a cut, which are the same whether its bytes come at once or one by one.
fn show_cut(rt: &HostRuntime, cut: &[u8]) -> io::Result<()> {
    let heap = rt.alloc();
    let mut quick: &[u8] = cut;
    let mut slow = Slow { rest: cut };
    let lines = answered(heap, &mut quick)?;
    if answered(heap, &mut slow)?.as_slice() != lines.as_slice() {
        println!(rt; "one by one the lines differ")?;
    }
    let count = cut.len();
    println!(rt; "{count} bytes")?;
    rt.stdout().write_all(lines.as_slice())
}

// How far a call reaches, as a word and a number: in these words, which the output keeps, no derive prints it.
#[derive(Drop)]
struct Reach(Result<usize, Unread>);

impl fmt::Display for Reach {
    fn fmt<W: fmt::Write>(&self, f: &mut fmt::Formatter<W>) -> fmt::Result {
        match self.0 {
            Ok(size) => write!(f, "Has({size})"),
            Err(Unread::CutOff { lacks }) => write!(f, "Lacks({lacks})"),
            Err(Unread::Unknown) => write!(f, "Unknown"),
            Err(Unread::TooLong) => write!(f, "TooLong"),
        }
    }
}

// How far calls reach whose heads tell sizes up to the limit of 65,536 bytes and past it.
fn show_limits(rt: &HostRuntime) -> io::Result<()> {
    let heads: [&[u8]; 7] = [
        b"F\x00\x00\xff\xfb",
        b"F\x00\x00\xff\xfc",
        b"F\xff\xff\xff\xff",
        b"I\x00\x02\x00\x00\x2a\xa8",
        b"I\x00\x01\x00\x00\x2a\xa9",
        b"I\xff\xff\xff\xff\xff\xff",
        b"f",
    ];
    for head in heads {
        let reach = Reach(extent(head));
        println!(rt; "{head:?} {reach}")?;
    }
    Ok(())
}

fn main(rt: HostRuntime) -> anyhow::Result<()> {
    let mut stream = Vec::new(rt.alloc());
    rt.stdin().read_to_end(&mut stream)?;
    for n in 0..=stream.len() {
        show_cut(&rt, &stream[..n])?;
    }
    show_limits(&rt)?;
    Ok(())
}
