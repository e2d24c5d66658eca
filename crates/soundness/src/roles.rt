ghost use Rattle.std.specs.Prelude.{◌≡◌, ◌*◌, not, ◌&&◌, List, nat_le};
ghost use Rattle.columns.specs.Format.{highest};
ghost use Rattle.columns.specs.Sent.{Data};
ghost use Rattle.columns.specs.SoundTests.{role_sound, climbs};
ghost use Rattle.columns.specs.Contents.{values_in};
ghost use Rattle.formats.specs.Spelled.{bytes_of};
ghost use Rattle.parcels.specs.Reads.{mask_of, within};
ghost use Rattle.parcels.specs.Roles.{role_of};
ghost use Rattle.parcels.specs.Drafts.{node_in};
ghost use Rattle.soundness.specs.Sizes.{Filled, MaskFilled, null_in};

use crate::ends::sound_ends;
use crate::masks::all_valid;
use crate::node::SentNode;
use formats::format::Width;
use formats::kind::Kind;
use parcels::draft::Role;

// No row is null, by a mask if there is one.
fn no_nulls(node: SentNode<'_>) -> bool
    requires { MaskFilled node.draft.head.rows node.draft.parts.mask }
    ensures { result ≡ not (null_in node.entry.draft.head.rows (mask_of node.entry.parcel.now node.entry.draft.parts.mask)) }
{
    let rows = node.rows();
    let mask = node.draft.parts.mask;
    mask.is_none_or(|part| all_valid(part.of(node.parcel), rows))
}

fn ends_reach(node: SentNode<'_>, width: Width, top: u64) -> bool
    requires { node.draft.parts.body.len ≡ bytes_of width * node.draft.head.rows }
    ensures { result ≡ (climbs 0 (values_in (bytes_of width) node.entry.draft.head.rows (within node.entry.parcel.now node.entry.draft.parts.body)) top && nat_le top (highest (bytes_of width))) }
{
    sound_ends(node.body(), width, top)
}

// Whether a node is sound as its parent asks: run ends climb to the parent's rows, and no entry of a map is null. A node
// that has no values has no run ends.
// That its buffers are filled is a clause: it is the outcome of one test of `sound`, which calls this next. A type of filled
// nodes would be made in that one place and taken apart here and in `kind_sound`.
pub(crate) fn role_sound(node: SentNode<'_>) -> bool
    requires { Filled node.draft }
    ensures { (ds : List Data) → result ≡ role_sound (role_of node.entry.draft.role) (node_in node.entry.parcel.now node.entry.draft ds) }
{
    match node.draft.role {
        Role::Free => true,
        Role::Entries => no_nulls(node),
        Role::Ends(top) => match node.draft.kind {
            Kind::Primitive(width) => ends_reach(node, width, u64::from(top)),
            _ => top == 0,
        },
    }
}
