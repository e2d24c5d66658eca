// Parts of a parcel, as they are, into the byte pool.
ghost use Rattle.std.specs.Prelude.{◌≡◌, ◌+◌, length};
ghost use Rattle.pools.specs.Used.{Fit, Gains};
ghost use Rattle.filing.specs.Masks.{mask_len, mask_sent, mask_at};
ghost use Rattle.filing.specs.News.{own_bytes, plan_in};

use crate::body::plain_bytes;
use pools::pool::Pool;
use pools::records::Part;
use soundness::node::SentNode;

// Where what is taken of a node as it is lies: its format, its mask if there is one, and one part more.
#[derive(Clone, Copy)]
pub(crate) struct Copied {
    pub format: Part,
    pub mask: Option<usize>,
    pub plain: Part,
}

// Adds a part's bytes, and says where they lie.
pub(crate) fn copy_part(bytes: &mut Pool<'_, u8>, part: &[u8]) -> Part
    requires { Fit bytes.old (length part.now) }
    ensures added { Gains bytes.old part.now bytes.new }
    ensures lies { result ≡ record { start = bytes.old.mark; len = length part.now } }
{
    let start = bytes.mark;
    bytes.extend(part);
    Part {
        start,
        len: part.len(),
    }
}

// Adds a mask's bytes where there is one, and says where.
fn copy_mask(bytes: &mut Pool<'_, u8>, node: SentNode<'_>) -> Option<usize>
    requires { Fit bytes.old (mask_len node.draft.parts.mask) }
    ensures added { Gains bytes.old (mask_sent node.entry.parcel.now node.entry.draft.parts.mask) bytes.new }
    ensures lies { result ≡ mask_at node.entry.draft.parts.mask bytes.old.mark }
{
    let part = node.draft.parts.mask?;
    Some(copy_part(bytes, part.of(node.parcel)).start)
}

// Adds a node's format, its mask, and the part that is taken as it is.
pub(crate) fn copy_parts(bytes: &mut Pool<'_, u8>, node: SentNode<'_>) -> Copied
    requires { Fit bytes.old (length (own_bytes node.parcel.now node.draft)) }
    ensures added { Gains bytes.old (own_bytes node.entry.parcel.now node.entry.draft) bytes.new }
    ensures format { result.format ≡ record { start = bytes.old.mark; len = node.entry.draft.head.format.len } }
    ensures mask { result.mask ≡ mask_at node.entry.draft.parts.mask (bytes.old.mark + node.entry.draft.head.format.len) }
    ensures plain { result.plain ≡ record { start = bytes.old.mark + node.entry.draft.head.format.len + mask_len node.entry.draft.parts.mask; len = (plan_in node.entry.draft).plain.len } }
{
    Copied {
        format: copy_part(bytes, node.draft.head.format.of(node.parcel)),
        mask: copy_mask(bytes, node),
        plain: copy_part(bytes, plain_bytes(node)),
    }
}
