ghost use Rattle.std.specs.Prelude.{◌≡◌, ℕ, List, ◌++◌, length};
ghost use Rattle.std.proofs.Math.Option.{none};
ghost use Rattle.pools.specs.Parts.{buffers_in};
ghost use Rattle.soundness.specs.Ladder.{data_of, unshelved_in, sound_in};

use crate::fill::filled;
use crate::kinds::kind_sound;
use crate::node::SentNode;
use crate::roles::role_sound;
use crate::shelved::Shelved;

// Whether a node is sound. The data buffers that it names were shelved before.
pub(crate) fn sound(node: SentNode<'_>, shelved: Shelved<'_>) -> bool
    ensures { (more : List (List ℕ)) → unshelved_in (length shelved.entry.buffers.now) (data_of node.entry.parcel.now (buffers_in shelved.entry.bytes.now shelved.entry.buffers.now ++ more) node.entry.draft) ≡ none
        → result ≡ sound_in node.entry.parcel.now (buffers_in shelved.entry.bytes.now shelved.entry.buffers.now ++ more) node.entry.draft }
{
    if !filled(node) {
        return false;
    }
    role_sound(node) && kind_sound(node, shelved)
}
