// The checks that wait until the whole parcel is read, node by node.
ghost use Rattle.std.specs.Prelude.{◌≡◌, ℕ, length};
ghost use Rattle.columns.specs.Checks.{first_denial};
ghost use Rattle.formats.specs.Spelled.{lifted};
ghost use Rattle.pools.specs.Parts.{buffers_in};
ghost use Rattle.parcels.specs.Lent.{data_from};
ghost use Rattle.parcels.specs.Drafts.{checks_of};
ghost use Rattle.soundness.specs.Ladder.{beyond_of, unshelved_in, denial_in};

use crate::data_buffers::DataBuffers;
use crate::node::{SentNode, SentNodes};
use crate::shelved::Shelved;
use crate::sound::sound;
use denials::Denial;
use parcels::sent::Sent;

// The number by which a data buffer is sent, where no such buffer was shelved before.
fn beyond(sent: Sent, before: usize) -> Option<usize>
    ensures { result ≡ beyond_of sent before }
{
    match sent {
        Sent::Named(number) => if number < before { None } else { Some(number) },
        Sent::Brought(_) => None,
    }
}

// The first data buffer of a list that is sent by a number and was not shelved before.
pub(crate) fn missing(mut lent: DataBuffers<'_>, before: usize) -> Option<usize>
    ensures { (next : ℕ) → lifted (unshelved_in before (data_from lent.entry.parcel.now lent.entry.at next lent.entry.left)) ≡ result }
{
    lent.find_map(|buffer| beyond(buffer.sent, before))
}

// The first denial of the drafts, by node: a data buffer that is not shelved, then unsound.
pub fn first_denied(nodes: SentNodes<'_>, shelved: Shelved<'_>) -> Result<(), Denial>
    ensures { first_denial (checks_of nodes.entry.parcel.now (length shelved.entry.buffers.now) (buffers_in shelved.entry.bytes.now shelved.entry.buffers.now) 0 nodes.entry.drafts.now) ≡ denial_in result }
{
    for (i, draft) in nodes.drafts.iter().enumerate() {
        let node = SentNode {
            parcel: nodes.parcel,
            draft: *draft,
        };
        if let Some(number) = missing(node.lent(), shelved.buffers.len()) {
            return Err(Denial::Missing(number));
        }
        if !sound(node, shelved) {
            return Err(Denial::Unsound(i));
        }
    }
    Ok(())
}
