// The nodes of a stored column: its root, a node, its first child and the next child.
ghost use Rattle.std.specs.Prelude.{◌≡◌, ◌+◌, ◌<◌, ◌≤◌, List, length, get_or, slice_index_or};
ghost use Rattle.columns.specs.Column.{Column, Columns, node as own_node, children, width, first, rest};
ghost use Rattle.columns.specs.Column.{at};
ghost use Rattle.columns.specs.Limits.{node_count};
ghost use Rattle.pools.specs.Grown.{most_entries};
ghost use Rattle.pools.specs.Used.{used};
ghost use Rattle.pools.specs.Kept.{Standing};
ghost use Rattle.pools.specs.Store.{Store, no_node, no_column};
ghost use Rattle.pools.specs.Held.{Held};
ghost use Rattle.pools.specs.Shows.{ColumnsShown};
ghost use Rattle.pools.specs.Stored.{Stored, EachStored};

use pools::pool::Pool;
use pools::records::{ColumnEntry, Node};

// The place of a column's root.
pub fn root_at(columns: &Pool<'_, ColumnEntry>, column: usize) -> usize
    requires { column < length (used columns.now) }
    ensures is { result ≡ (get_or (used columns.now) column no_column).root }
    ensures told { (P : Store) (cs : List Column) → P.columns ≡ used columns.now → ColumnsShown P cs → Stored P result (at cs column) }
{
    columns.get(column).root
}

// The node at a place.
pub fn node_at(nodes: &Pool<'_, Node>, place: usize) -> Node
    requires { place < length (used nodes.now) }
    ensures is { result ≡ slice_index_or (used nodes.now) place no_node }
    ensures told { (P : Store) (c : Column) → P.nodes ≡ used nodes.now → Stored P place c → Held P result (own_node c) (width (children c)) (node_count c) }
{
    nodes.get(place)
}

// Where the children of the node at a place start, if it has any.
pub fn first_child(place: usize) -> usize
    requires { place < most_entries }
    ensures { result ≡ place + 1 }
{
    place + 1
}

// Where the next child starts, after the child at a place and all its nodes. That the mark is in range is a clause, as at `Pool`.
pub fn next_child(nodes: &Pool<'_, Node>, place: usize) -> usize
    requires standing { Standing nodes.now }
    requires there { place < length (used nodes.now) }
    ensures is { result ≡ place + (get_or (used nodes.now) place no_node).span }
    ensures told { (P : Store) (cs : Columns) → P.nodes ≡ used nodes.now → 0 < width cs → EachStored P place cs → Stored P place (first cs) × EachStored P result (rest cs) }
{
    place + usize::from(nodes.get(place).span)
}
