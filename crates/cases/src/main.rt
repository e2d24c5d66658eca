// Runs streams of calls, each on a fresh shelf whose pools have the lengths that stand before it. A case is the lengths of
// pools 1 to 11 and of the text buffer, then the length of its stream, each in 32 bits, most significant first, then the
// stream itself.
#![tactic(auto)]

ghost use Rattle.std.specs.Prelude.{◌<◌, length, IfSome};

use pools::pool::Pool;
use pools::pools::Pools;
use pools::records::{ColumnEntry, Node, Part, View};
use shelf::owner::Shelf;
use std::alloc::Global;
use std::io;
use std::io::{Read, Write};
use wire::serve::serve;

// The lengths of pools 1 to 11, of the text buffer and of the stream.
const NUMBERS: usize = 13;

#[derive(Clone, Copy)]
struct Case<'a> {
    // of pools 1 to 11 and of the text buffer
    lengths: [usize; 12],
    stream: &'a [u8],
}

// The numbers of 32 bits that the bytes begin with; 0 for those that are not there.
fn numbers(bytes: &[u8]) -> [usize; NUMBERS] {
    let mut numbers = [0; NUMBERS];
    let (words, _) = bytes.as_chunks::<4>();
    for (number, word) in numbers.iter_mut().zip(words) {
        // `as`, since `usize` has no `From<u32>`
        *number = u32::from_be_bytes(*word) as usize;
    }
    numbers
}

// The case that the input begins with, and what comes after it. A stream that is cut off is taken as it is.
fn split_case<'a>(input: &'a [u8]) -> Option<(Case<'a>, &'a [u8])>
    ensures { IfSome result (λ split. length split.1.now < length input.now) }
{
    let (head, rest) = input.split_at_checked(4 * NUMBERS)?;
    let [a, b, c, d, e, f, g, h, i, j, k, text, stream] = numbers(head);
    let (stream, after) = rest.split_at(stream.min(rest.len()));
    let lengths = [a, b, c, d, e, f, g, h, i, j, k, text];
    Some((Case { lengths, stream }, after))
}

// One vector for each kind of entry: they have no common type to go over.
fn run_case<W: Write>(heap: Global, case: Case<'_>, out: &mut W) -> io::Result<()> {
    let [
        columns,
        nodes,
        bytes,
        shorts,
        words,
        longs,
        offsets,
        views,
        lists,
        buffers,
        slip,
        text,
    ] = case.lengths;
    let mut columns = vec![in heap; ColumnEntry::default(); columns]?;
    let mut nodes = vec![in heap; Node::default(); nodes]?;
    let mut bytes = vec![in heap; 0u8; bytes]?;
    let mut shorts = vec![in heap; 0u16; shorts]?;
    let mut words = vec![in heap; 0u32; words]?;
    let mut longs = vec![in heap; 0u64; longs]?;
    let mut offsets = vec![in heap; 0u64; offsets]?;
    let mut views = vec![in heap; View::default(); views]?;
    let mut lists = vec![in heap; 0u32; lists]?;
    let mut buffers = vec![in heap; Part::default(); buffers]?;
    let mut slip = vec![in heap; (0u16, 0u32); slip]?;
    let mut text = vec![in heap; 0u8; text]?;
    let pools = Pools {
        columns: Pool::from(columns.as_mut_slice()),
        nodes: Pool::from(nodes.as_mut_slice()),
        bytes: Pool::from(bytes.as_mut_slice()),
        shorts: Pool::from(shorts.as_mut_slice()),
        words: Pool::from(words.as_mut_slice()),
        longs: Pool::from(longs.as_mut_slice()),
        offsets: Pool::from(offsets.as_mut_slice()),
        views: Pool::from(views.as_mut_slice()),
        lists: Pool::from(lists.as_mut_slice()),
        buffers: Pool::from(buffers.as_mut_slice()),
    };
    let mut shelf = Shelf::new(pools, &mut slip);
    let mut stream = case.stream;
    serve(heap, &mut stream, out, &mut shelf, &mut text)
}

fn main(rt: HostRuntime) -> io::Result<()> {
    let heap = rt.alloc();
    let mut held = Vec::new(heap);
    rt.stdin().read_to_end(&mut held)?;
    let mut input = held.as_slice();
    while let Some((case, after)) = split_case(input) {
        run_case(heap, case, &mut rt.stdout())?;
        println!(rt; "--")?;
        input = after;
    }
    Ok(())
}
