// An accepted parcel into the pools.
ghost use Rattle.std.specs.Prelude.{ℕ, ◌≤◌, [], ◌∷◌, length};
ghost use Rattle.columns.specs.Parcel.{parcel_read};
ghost use Rattle.columns.specs.Ledger.{Shelf, filed_on};
ghost use Rattle.pools.specs.Kept.{Ready, Kept};
ghost use Rattle.pools.specs.Used.{Gains};
ghost use Rattle.pools.specs.Store.{store as store_of};
ghost use Rattle.pools.specs.Shows.{Shows};
ghost use Rattle.filing.specs.Accepted.{Accepted};

use crate::nodes::put_nodes;
use crate::spans::fill_spans;
use pools::pools::Pools;
use pools::records::ColumnEntry;
use soundness::node::SentNodes;

// Adds the column that the drafts tell, with all that it holds: the pools then show the shelf with the parcel filed.
// That the pools' marks are in range stays a clause: the pools are the caller's, who may set their marks at any time.
pub fn store(pools: &mut Pools<'_>, nodes: SentNodes<'_>)
    requires ready { Ready pools.old }
    requires few { length nodes.drafts.now ≤ 256 }
    requires accepted { ∥ ((s : Shelf) × (slip : ℕ) × Accepted pools.old slip s nodes.parcel.now nodes.drafts.now) ∥₁ }
    ensures kept { Kept pools.old pools.new }
    ensures entry { Gains pools.old.columns (record { root = pools.old.nodes.mark } ∷ []) pools.new.columns }
    ensures shown { (s : Shelf) (slip : ℕ) → Accepted pools.old slip s nodes.entry.parcel.now nodes.entry.drafts.now → Shows (store_of pools.new) (filed_on s (parcel_read s.buffers nodes.entry.parcel.now)) }
{
    // As long as a column can have nodes, since the shelf has no heap.
    let mut table = [0; 256];
    let spans = &mut table[..nodes.drafts.len()];
    fill_spans(spans, nodes.drafts);
    let root = pools.nodes.mark;
    pools.columns.append(ColumnEntry { root });
    put_nodes(pools, nodes.parcel, nodes.drafts, spans);
}
