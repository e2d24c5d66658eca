// The data buffers that views name.
ghost use Rattle.std.specs.Prelude.{◌≡◌, ℕ, ◌+◌, ◌^◌, ◌<◌, ◌≤◌, List, [], length, slice_index, slice_index_or};
ghost use Rattle.columns.specs.Says.{slice};
ghost use Rattle.pools.specs.Shows.{Shelved};
ghost use Rattle.pools.specs.Store.{store, Lies};
ghost use Rattle.rows.specs.Shelved.{buffer_number, buffer_part, buffered_part};

use pools::pools::Pools;
use pools::records::{Node, Part};

// The number of the data buffer at a position of a node's list.
fn buffer_number(pools: &Pools<'_>, node: &Node, position: usize) -> usize
    requires listed { node.now.buffers.start + position < length (store pools.now).lists }
    requires small { node.now.buffers.start + position < 2 ^ 64 }
    ensures { result ≡ buffer_number (store pools.now) node.now position }
{
    pools.lists.get(node.buffers.start + position) as usize
}

// Where the text of a view lies in the byte pool, if it is not in the view.
pub fn buffered_text(
    pools: &Pools<'_>,
    node: &Node,
    position: usize,
    offset: usize,
    len: usize,
) -> Part
    requires listed { node.now.buffers.start + position < length (store pools.now).lists }
    requires fits { node.now.buffers.start + position < 2 ^ 64 }
    requires shelved { buffer_number (store pools.now) node.now position < length (store pools.now).buffers }
    requires small { (buffer_part (store pools.now) node.now position).start + offset < 2 ^ 64 }
    ensures is { result ≡ buffered_part (store pools.now) node.now position offset len }
    ensures told { (listed : List ℕ) (shelved : List (List ℕ)) → Lies (store pools.now).lists node.now.buffers listed → Shelved (store pools.now) shelved → position < length listed → offset + len ≤ length (slice_index_or shelved (slice_index listed position) []) → Lies (store pools.now).bytes result (slice (slice_index_or shelved (slice_index listed position) []) offset len) }
{
    let buffer = pools.buffers.get(buffer_number(pools, node, position));
    buffer.narrow(Part { start: offset, len })
}
