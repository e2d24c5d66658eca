ghost use Rattle.std.specs.Prelude.{◌≡◌, ◌+◌, ◌*◌, ◌≤◌, ◌&&◌, length, ◌==◌, nat_le};
ghost use Rattle.columns.specs.Checks.{all_of};
ghost use Rattle.columns.specs.Says.{slice};
ghost use Rattle.columns.specs.Sound.{little_endian};
ghost use Rattle.columns.specs.Contents.{view_in, views_in};
ghost use Rattle.parcels.specs.Reads.{within};
ghost use Rattle.soundness.specs.Sources.{sources, view_fine};

use crate::index::Index;
use crate::node::SentNode;
use crate::shelved::Shelved;
use pools::laid::Laid;

// A text of this length lies in a data buffer at the offset, and begins with the prefix.
fn holds(source: &[u8], offset: u32, len: u32, prefix: u32) -> bool
    requires { 4 ≤ len }
    ensures { result ≡ (nat_le (offset + len) (length source.now) && prefix == little_endian (slice source.now offset 4)) }
{
    let start = offset as usize;
    start + len as usize <= source.len() && prefix == u32::first_of(&source[start..])
}

// A long view's position is in the node's list, its text in that data buffer, and its prefix the text's first bytes.
fn sound_view(index: &Index<'_>, shelved: Shelved<'_>, view: &[u8]) -> bool
    requires { length view.now ≡ 16 }
    ensures { result ≡ view_fine (sources index.now.node.parcel.now shelved.entry.bytes.now shelved.entry.buffers.now index.now.node.draft.parts.lent) index.now.node.draft.parts.lent.len (view_in view.now) }
{
    let len = u32::first_of(view);
    if len <= 12 {
        return true;
    }
    let prefix = u32::first_of(&view[4..]);
    let position = u32::first_of(&view[8..]) as usize;
    let offset = u32::first_of(&view[12..]);
    if position >= index.node.draft.parts.lent.len {
        return false;
    }
    let text = shelved.source(index.node.parcel, index.find(position));
    holds(text, offset, len, prefix)
}

// Whether all views of a node are sound. A view costs a few steps, and 255 at most over 65,535 data buffers.
pub(crate) fn sound_views(node: SentNode<'_>, shelved: Shelved<'_>) -> bool
    requires { node.draft.parts.body.len ≡ 16 * node.draft.head.rows }
    ensures { result ≡ all_of (view_fine (sources node.entry.parcel.now shelved.entry.bytes.now shelved.entry.buffers.now node.entry.draft.parts.lent) node.entry.draft.parts.lent.len) (views_in node.entry.draft.head.rows (within node.entry.parcel.now node.entry.draft.parts.body)) }
{
    let index = Index::of(node);
    node.body()
        .chunks_exact(16)
        .all(|view| sound_view(&index, shelved, view))
}
