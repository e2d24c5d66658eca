// All that is decided of a parcel before anything is stored.
ghost use Rattle.std.specs.Prelude.{◌≡◌, ℕ, ◌≤◌, List, length, take, Ok, Err};
ghost use Rattle.columns.specs.Ledger.{Shelf, file_denial};
ghost use Rattle.columns.specs.Parcel.{parcel_read};
ghost use Rattle.pools.specs.Parts.{buffers_in};
ghost use Rattle.soundness.specs.Ladder.{denial_in};
ghost use Rattle.admission.specs.Examine.{Stands, Examined};

use crate::accepted::Accepted;
use crate::needs::needs;
use denials::Denial;
use parcels::draft::Draft;
use parcels::node::outline;
use pools::entries::Entries;
use pools::room::full_pool;
use soundness::ladder::first_denied;
use soundness::node::SentNodes;
use soundness::shelved::Shelved;

// The first denial that a parcel meets: as it is read, then by node, then for want of room. Else its nodes are drafted,
// and what they need is told.
// The table of drafts is lent and of fixed size, since the shelf has no heap; how many of it are drafted is in `Accepted`.
pub fn examine(
    parcel: &[u8],
    shelved: Shelved<'_>,
    lengths: Entries,
    marks: Entries,
    drafts: &mut [Draft; 256],
) -> Result<Accepted, Denial>
    ensures answers { (ends : List ℕ) (s : Shelf) → Stands ends s shelved.entry.bytes.now shelved.entry.buffers.now lengths marks
        → denial_in result ≡ file_denial ends s (parcel_read s.buffers parcel.now) }
    ensures drafted { elim result [
      | Ok x ↦ (x.nodes ≤ 256) × Examined (buffers_in shelved.entry.bytes.now shelved.entry.buffers.now) parcel.now (take x.nodes drafts.new) x.needs
      | Err _ ↦ Unit {0}
    ] }
{
    let nodes = outline(parcel, drafts)?;
    let sent = SentNodes {
        parcel,
        drafts: &drafts[0..nodes],
    };
    first_denied(sent, shelved)?;
    let needed = needs(sent);
    if let Some(pool) = full_pool(&lengths, &marks, &needed) {
        return Err(Denial::Full(pool));
    }
    Ok(Accepted {
        nodes,
        needs: needed,
    })
}
