ghost use Rattle.std.specs.Prelude.{◌≡◌, ◌≤◌, true, List};
ghost use Rattle.columns.specs.Sent.{Data};
ghost use Rattle.columns.specs.SoundTests.{fills, mask_fills};
ghost use Rattle.formats.specs.Kinds.{layout, offset_width};
ghost use Rattle.parcels.specs.Reads.{mask_of, sent_of};
ghost use Rattle.parcels.specs.Drafts.{kind_in, head_in};
ghost use Rattle.soundness.specs.Sizes.{body_by, MaskFilled, Filled};

use crate::node::SentNode;
use crate::values::{bit_bytes, offset_width};
use formats::kind::Kind;

// The bytes of a kind's first buffer after its mask. The bound of the rows is a clause, as it is at `bit_bytes`.
fn body_size(kind: Kind, rows: usize) -> usize
    requires { rows ≤ 1048576 }
    ensures { result ≡ body_by (layout kind) (offset_width kind) rows }
{
    match kind {
        Kind::Primitive(width) => width.bytes() * rows,
        Kind::Boolean => bit_bytes(rows),
        Kind::Text { wide } | Kind::List { wide } => offset_width(wide).bytes() * (rows + 1),
        Kind::View => 16 * rows,
        Kind::Map => 4 * (rows + 1),
        Kind::Struct | Kind::RunEnds | Kind::FixedList(_) => 0,
    }
}

fn mask_filled(node: SentNode<'_>) -> bool
    ensures exact { result ≡ true → MaskFilled node.entry.draft.head.rows node.entry.draft.parts.mask }
    ensures is { result ≡ mask_fills node.entry.draft.head.rows (mask_of node.entry.parcel.now node.entry.draft.parts.mask) }
{
    let rows = node.rows();
    let mask = node.draft.parts.mask;
    mask.is_none_or(|part| part.len == bit_bytes(rows))
}

// The mask and the first buffer have exactly the bytes that the rows take.
// A bool, not a node of a type of its own: only `sound` tests it, and the two checks that need it follow there at once.
pub(crate) fn filled(node: SentNode<'_>) -> bool
    ensures exact { result ≡ true → Filled node.entry.draft }
    ensures is { (ds : List Data) → result ≡ fills (kind_in node.entry.parcel.now node.entry.draft) (head_in node.entry.parcel.now node.entry.draft) (sent_of node.entry.parcel.now node.entry.draft.parts ds) }
{
    let size = body_size(node.draft.kind, node.rows());
    mask_filled(node) && node.draft.parts.body.len == size
}
