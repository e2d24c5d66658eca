ghost use Rattle.std.specs.Prelude.{◌≡◌, ℕ, ◌+◌, ◌*◌, List, ◌++◌, length};
ghost use Rattle.std.proofs.Math.Option.{none};
ghost use Rattle.columns.specs.SoundTests.{offsets_sound};
ghost use Rattle.columns.specs.Contents.{values_in};
ghost use Rattle.formats.specs.Spelled.{bytes_of};
ghost use Rattle.pools.specs.Parts.{buffers_in};
ghost use Rattle.parcels.specs.Reads.{within};
ghost use Rattle.soundness.specs.Sizes.{Filled};
ghost use Rattle.soundness.specs.Ladder.{data_of, unshelved_in, kind_sound_in};

use crate::node::SentNode;
use crate::offsets::sound_offsets;
use crate::shelved::Shelved;
use crate::values::offset_width;
use crate::views::sound_views;
use formats::format::Width;
use formats::kind::Kind;

// The offsets of a byte string, a list or a map end within the bound.
fn offsets_within(node: SentNode<'_>, width: Width, bound: u64) -> bool
    requires { node.draft.parts.body.len ≡ bytes_of width * (node.draft.head.rows + 1) }
    ensures { result ≡ offsets_sound (bytes_of width) (values_in (bytes_of width) (node.entry.draft.head.rows + 1) (within node.entry.parcel.now node.entry.draft.parts.body)) bound }
{
    sound_offsets(node.body(), width, bound)
}

// Whether a node is sound as its kind asks. Its buffers are filled, and the data buffers that it names were shelved before.
// That they are filled is a clause: it is the outcome of one test of `sound`, which calls this next. A type of filled nodes
// would be made in that one place and taken apart here and in `role_sound`.
pub(crate) fn kind_sound(node: SentNode<'_>, shelved: Shelved<'_>) -> bool
    requires { Filled node.draft }
    ensures { (more : List (List ℕ)) → unshelved_in (length shelved.entry.buffers.now) (data_of node.entry.parcel.now (buffers_in shelved.entry.bytes.now shelved.entry.buffers.now ++ more) node.entry.draft) ≡ none
        → result ≡ kind_sound_in node.entry.parcel.now (buffers_in shelved.entry.bytes.now shelved.entry.buffers.now ++ more) node.entry.draft }
{
    let text = node.draft.parts.text;
    let below = node.draft.below;
    match node.draft.kind {
        Kind::Primitive(_) | Kind::Boolean => true,
        Kind::Text { wide } => offsets_within(node, offset_width(wide), text.len as u64),
        Kind::View => sound_views(node, shelved),
        Kind::List { wide } => offsets_within(node, offset_width(wide), u64::from(below.first)),
        Kind::Map => offsets_within(node, Width::Four, u64::from(below.first)),
        Kind::Struct => below.alike,
        Kind::RunEnds => below.second == below.first,
        Kind::FixedList(size) => u64::from(below.first)
            == u64::from(node.draft.head.rows) * u64::from(size),
    }
}
