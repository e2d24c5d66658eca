// The nodes of a parcel into the pools, in parcel order.
ghost use Rattle.std.specs.Prelude.{◌≡◌, length};
ghost use Rattle.std.specs.List.{AllByRecursion};
ghost use Rattle.pools.specs.Kept.{Ready};
ghost use Rattle.parcels.specs.Drafts.{Drafted};
ghost use Rattle.soundness.specs.Sizes.{Filled};
ghost use Rattle.filing.specs.Filed.{Fits, Filed, takes_all};

use crate::node::put_node;
use parcels::draft::Draft;
use pools::pools::Pools;
use soundness::node::SentNode;

// Adds each draft in turn, with the number of nodes of its subtree.
// The parcel and the drafts are not one `SentNodes`: that what was added reads back as the node takes bytes below 256, which the
// check tells of a slice that is a parameter, but not of one that is a field or that a method gives. That the drafts are filled is
// a clause too: a type of a filled node would be made in this loop alone, and be taken apart again where each part is added.
pub(crate) fn put_nodes(pools: &mut Pools<'_>, parcel: &[u8], drafts: &[Draft], spans: &[u16])
    requires ready { Ready pools.old }
    requires drafted { AllByRecursion (Drafted parcel.now) drafts.now }
    requires filled { AllByRecursion Filled drafts.now }
    requires room { Fits pools.old (takes_all parcel.now drafts.now) }
    requires spans { length drafts.now ≡ length spans.now }
    ensures { Filed pools.old pools.new parcel.now drafts.now spans.now }
{
    for (draft, span) in drafts.iter().zip(spans) {
        let node = SentNode {
            parcel,
            draft: *draft,
        };
        put_node(pools, node, *span);
    }
}
