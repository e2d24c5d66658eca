// The ranges of list and byte-string rows.
ghost use Rattle.std.specs.Prelude.{◌≡◌, ℕ, ◌+◌, ◌^◌, ◌<◌, ◌≤◌, List, length};
ghost use Rattle.columns.specs.Column.{Node as Told, kind};
ghost use Rattle.columns.specs.Gathering.{ranges};
ghost use Rattle.columns.specs.Says.{slice, offset_start, offset_length};
ghost use Rattle.pools.specs.Used.{used};
ghost use Rattle.pools.specs.Store.{Store, Segment, Lies};
ghost use Rattle.pools.specs.Held.{Held};
ghost use Rattle.rows.specs.Ranged.{between, row_range, RangeThere, text_part};

use formats::kind::Kind;
use pools::pool::Pool;
use pools::records::{Node, Part};

// What lies between the offset at a place and the next.
fn between(offsets: &Pool<'_, u64>, place: usize) -> Part
    requires { place + 1 < length (used offsets.now) }
    ensures { result ≡ between (used offsets.now) place }
{
    let start = offsets.get(place) as usize;
    let end = offsets.get(place + 1) as usize;
    Part {
        start,
        len: end.saturating_sub(start),
    }
}

// The range of a row: where it starts among the child's rows or in the text, and how long it is.
pub fn range_at(offsets: &Pool<'_, u64>, node: &Node, row: usize) -> Part
    requires { RangeThere (used offsets.now) node.now.kind node.now.place row }
    ensures is { result ≡ row_range (used offsets.now) node.now.kind node.now.place row }
    ensures told { (P : Store) (n : Told) (children nodes : ℕ) → P.offsets ≡ used offsets.now → Held P node.now n children nodes → row < n.rows → (result.start ≡ (ranges (kind n) n).start row) × (result.len ≡ (ranges (kind n) n).size row) }
{
    match node.kind {
        Kind::Text { .. } | Kind::List { .. } | Kind::Map => between(offsets, node.place + row),
        Kind::FixedList(size) => Part {
            start: row * size as usize,
            len: size as usize,
        },
        Kind::Primitive(_) | Kind::Boolean | Kind::View | Kind::Struct | Kind::RunEnds => {
            Part::default()
        }
    }
}

// Where the bytes of a byte-string row lie in the byte pool.
pub fn text_at(offsets: &Pool<'_, u64>, node: &Node, row: usize) -> Part
    requires there { node.now.place + row + 1 < length (used offsets.now) }
    requires small { (text_part (used offsets.now) node.now row).start < 2 ^ 64 }
    ensures is { result ≡ text_part (used offsets.now) node.now row }
    ensures told { (bytes : List ℕ) (n : Told) → Segment (used offsets.now) node.now.place (n.rows + 1) n.offsets → Lies bytes node.now.text n.text → row < n.rows → offset_start n row + offset_length n row ≤ length n.text → Lies bytes result (slice n.text (offset_start n row) (offset_length n row)) }
{
    let range = between(offsets, node.place + row);
    node.text.narrow(range)
}
