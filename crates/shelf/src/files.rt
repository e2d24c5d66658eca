// Filing a parcel, over pools as some calls left them.
ghost use Rattle.std.specs.Prelude.{◌≡◌, List, [], ◌∷◌, ◌++◌};
ghost use Rattle.columns.specs.Ledger.{Call, adds, filing, shelf_of, answer};
ghost use Rattle.pools.specs.Used.{used};
ghost use Rattle.pools.specs.Kept.{Standing};
ghost use Rattle.pools.specs.Marked.{marks_of, entries};
ghost use Rattle.shelf.specs.Stands.{Stands, Reached, lengths, ledger};
ghost use Rattle.shelf.specs.Answers.{answered, Left};
ghost use Rattle.shelf.specs.Led.{Led, lengths_in, next_answer};

use crate::owner::Shelf;
use admission::examine::examine;
use denials::Denial;
use filing::store::store;
use parcels::draft::Draft;
use pools::entries::Entries;
use pools::pools::Pools;
use soundness::node::SentNodes;
use soundness::shelved::Shelved;

// Files a parcel: the number of its column, or why it is denied, and then the pools are as they were. No pool gets longer or
// shorter.
fn file_into(pools: &mut Pools<'_>, slip: usize, parcel: &[u8]) -> Result<u32, Denial>
    requires { ∥ Reached pools.old slip ∥₁ }
    ensures stands { (calls : List Call) → Stands calls pools.old slip → Stands (calls ++ adds (filing parcel.now) ∷ []) pools.new slip }
    ensures answers { (calls : List Call) → Stands calls pools.old slip → answered result ≡ answer (lengths pools.old slip) (shelf_of (ledger pools.old slip calls)) (adds (filing parcel.now)) }
    ensures denied { Left result pools.old pools.new }
    ensures lent { lengths pools.new slip ≡ lengths pools.old slip }
{
    let lengths = Entries {
        pools: pools.lengths(),
        slip,
    };
    let marks = Entries::from(pools.marks());
    // A table of fixed size, since the shelf has no heap.
    let mut drafts = [Draft::default(); 256];
    let shelved = Shelved {
        bytes: pools.bytes.used(),
        buffers: pools.buffers.used(),
    };
    let accepted = examine(parcel, shelved, lengths, marks, &mut drafts)?;
    let column = pools.columns.mark as u32;
    let nodes = SentNodes {
        parcel,
        drafts: &drafts[..accepted.nodes],
    };
    store(pools, nodes);
    Ok(column)
}

impl Shelf<'_> {
    // Files a parcel: the number of its column, or why it is denied, and then the pools are as they were. Whatever calls led
    // here, they and this one led to what the shelf is then, and their ledger answers so. No pool gets longer or shorter, and
    // the slip is left as it is.
    pub fn file(&mut self, parcel: &[u8]) -> Result<u32, Denial>
        ensures led { (calls : List Call) → Led calls self.old → Led (calls ++ adds (filing parcel.now) ∷ []) self.new }
        ensures answers { (calls : List Call) → Led calls self.old → answered result ≡ next_answer self.old calls (adds (filing parcel.now)) }
        ensures denied { Left result self.old.pools self.new.pools }
        ensures lent { lengths_in self.new ≡ lengths_in self.old }
        ensures slip { self.new.slip ≡ self.old.slip }
    {
        let slip = self.slip.len();
        file_into(&mut self.pools, slip, parcel)
    }
}
