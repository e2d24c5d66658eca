// What a parcel needs of the pools.
ghost use Rattle.std.specs.Prelude.{◌≡◌, ℕ, ◌+◌, ◌-◌, ◌*◌, ◌^◌, ◌<◌, ◌≤◌, List, map, length};
ghost use Rattle.std.specs.List.{AllByRecursion};
ghost use Rattle.columns.specs.Pools.{plus, one_column, sum_of};
ghost use Rattle.parcels.specs.Lent.{brought_from};
ghost use Rattle.pools.specs.Marked.{listed};
ghost use Rattle.admission.specs.Needs.{needed, mask_need, own_entries, width_entries, kind_entries, draft_entries, drafts_need};

use formats::format::Width;
use formats::kind::Kind;
use parcels::sent::Sent;
use pools::entries::Entries;
use pools::pools::Marks;
use pools::records::Part;
use soundness::data_buffers::DataBuffers;
use soundness::node::{SentNode, SentNodes};
use soundness::values::bit_bytes;

// The data buffers that a node brings: how many, and how many bytes they have.
#[derive(Clone, Copy, Default)]
struct NewBuffers {
    count: usize,
    bytes: usize,
}

fn brought(lent: DataBuffers<'_>) -> NewBuffers
    requires { lent.left < 65536 }
    ensures count { result.count ≡ length (brought_from lent.entry.parcel.now lent.entry.at lent.entry.left) }
    ensures bytes { result.bytes ≡ sum_of (map length (brought_from lent.entry.parcel.now lent.entry.at lent.entry.left)) }
    ensures few { result.count < 65536 }
    ensures low { result.bytes < 140737488355328 }
{
    let mut total = NewBuffers::default();
    for buffer in lent {
        match buffer.sent {
            Sent::Brought(len) => {
                total.count += 1;
                total.bytes += len;
            }
            Sent::Named(_) => {}
        }
    }
    total
}

// What a node with values of a width needs, `own` being what it needs whatever its kind is. The bound of the rows is a clause
// here and below, as it is at `bit_bytes`.
fn width_needs(width: Width, own: Marks, rows: usize) -> Marks
    requires { (needed own ≡ own_entries own.bytes own.buffers) × ((own.bytes < 140737490000000) × (rows ≤ 1048576)) }
    ensures { needed result ≡ width_entries width own.bytes rows own.buffers }
{
    match width {
        Width::One => Marks {
            bytes: own.bytes + rows,
            ..own
        },
        Width::Two => Marks {
            shorts: rows,
            ..own
        },
        Width::Four => Marks { words: rows, ..own },
        Width::Eight => Marks { longs: rows, ..own },
    }
}

// What a node of a kind needs: `base` bytes whatever its kind is, and `new` data buffers.
fn kind_needs(kind: Kind, base: usize, rows: usize, text: usize, list: usize, new: usize) -> Marks
    requires { (base < 140737490000000) × ((rows ≤ 1048576) × ((text < 4294967296) × ((list < 65536) × (new < 65536)))) }
    ensures { needed result ≡ kind_entries kind base rows text list new }
{
    let own = Marks {
        nodes: 1,
        bytes: base,
        buffers: new,
        ..Marks::default()
    };
    match kind {
        Kind::Primitive(width) => width_needs(width, own, rows),
        Kind::Boolean => Marks {
            bytes: base + bit_bytes(rows),
            ..own
        },
        Kind::Text { .. } => Marks {
            bytes: base + text,
            offsets: rows + 1,
            ..own
        },
        Kind::View => Marks {
            views: rows,
            lists: list,
            ..own
        },
        Kind::List { .. } | Kind::Map => Marks {
            offsets: rows + 1,
            ..own
        },
        Kind::Struct | Kind::RunEnds | Kind::FixedList(_) => own,
    }
}

fn mask_bytes(mask: Option<Part>, rows: usize) -> usize
    requires { rows ≤ 1048576 }
    ensures is { result ≡ mask_need mask rows }
    ensures low { result ≤ 131072 }
{
    mask.map_or(0, |_| bit_bytes(rows))
}

// What a node needs: itself, its format string, its buffers, and the data buffers that it brings.
fn draft_needs(node: SentNode<'_>) -> Marks
    ensures is { needed result ≡ draft_entries node.entry.parcel.now node.entry.draft }
    ensures low { AllByRecursion (λ v. v ≤ 281474976710656) (needed result) }
{
    let rows = node.rows();
    let new = brought(node.lent());
    let d = node.draft;
    let base = mask_bytes(d.parts.mask, rows) + d.head.format.len + new.bytes;
    kind_needs(
        d.kind,
        base,
        rows,
        d.parts.text.len,
        d.parts.lent.len,
        new.count,
    )
}

// What the drafts of a parcel need, and one column.
pub(crate) fn needs(nodes: SentNodes<'_>) -> Entries
    requires { length nodes.drafts.now ≤ 256 }
    ensures { listed result ≡ plus one_column (drafts_need nodes.entry.parcel.now nodes.entry.drafts.now) }
{
    let mut total = Marks {
        columns: 1,
        ..Marks::default()
    };
    for draft in nodes.drafts {
        let node = SentNode {
            parcel: nodes.parcel,
            draft: *draft,
        };
        total = total + draft_needs(node);
    }
    Entries::from(total)
}
