// The program: calls on standard input, a line for each on standard output.
#![tactic(auto)]

use pools::pool::Pool;
use pools::pools::Pools;
use pools::records::{ColumnEntry, Node, Part, View};
use shelf::owner::Shelf;
use std::io;
use wire::serve::serve;

// Each pool has so many entries.
const ENTRIES: usize = 2_048;

// `read` writes a row's text into a buffer of so many bytes.
const TEXT_BYTES: usize = 4_096;

fn main(rt: HostRuntime) -> io::Result<()> {
    // one array for each kind of entry: they have no common type to go over
    let mut columns = [ColumnEntry::default(); ENTRIES];
    let mut nodes = [Node::default(); ENTRIES];
    let mut bytes = [0u8; ENTRIES];
    let mut shorts = [0u16; ENTRIES];
    let mut words = [0u32; ENTRIES];
    let mut longs = [0u64; ENTRIES];
    let mut offsets = [0u64; ENTRIES];
    let mut views = [View::default(); ENTRIES];
    let mut lists = [0u32; ENTRIES];
    let mut buffers = [Part::default(); ENTRIES];
    let mut slip = [(0u16, 0u32); ENTRIES];
    let mut text = [0u8; TEXT_BYTES];
    let pools = Pools {
        columns: Pool::from(&mut columns[..]),
        nodes: Pool::from(&mut nodes[..]),
        bytes: Pool::from(&mut bytes[..]),
        shorts: Pool::from(&mut shorts[..]),
        words: Pool::from(&mut words[..]),
        longs: Pool::from(&mut longs[..]),
        offsets: Pool::from(&mut offsets[..]),
        views: Pool::from(&mut views[..]),
        lists: Pool::from(&mut lists[..]),
        buffers: Pool::from(&mut buffers[..]),
    };
    let mut shelf = Shelf::new(pools, &mut slip);
    serve(
        rt.alloc(),
        &mut rt.stdin(),
        &mut rt.stdout(),
        &mut shelf,
        &mut text,
    )
}
