ghost use Rattle.soundness.specs.Sources.{Indexed};
ghost use Rattle.soundness.specs.Props.{indexed_prop};

use crate::lents::{sent_at, skip};
use crate::node::SentNode;
use crate::places::Places;
use crate::sent::DataBuffer;

// A node with the places of some of its data buffers, so that each of them is found in a few steps.
#[derive(Drop)]
pub(crate) struct Index<'a> {
    pub node: SentNode<'a>,
    pub places: Places,
    pub ghost indexed: { Indexed node.parcel.now node.draft.parts.lent places } by { indexed_prop node.parcel.now node.draft.parts.lent places },
}

impl<'a> Index<'a> {
    ghost use Rattle.std.specs.Prelude.{◌≡◌, ◌<◌};
    ghost use Rattle.parcels.specs.Lent.{place_of};
    ghost use Rattle.soundness.specs.Buffers.{buffer_in};

    // One walk over the data buffers: every so many-th one's place is kept.
    pub fn of(node: SentNode<'a>) -> Index<'a>
        ensures { result.node ≡ node.entry }
    {
        let stride = node.draft.parts.lent.len / 256 + 1;
        let mut marks = [0; 256];
        // By index: after `marks.iter_mut().zip(..)` a proof knows the length of the array and not what it holds.
        for (k, buffer) in node.lent().step_by(stride).enumerate() {
            marks[k] = buffer.at;
        }
        Index {
            node,
            places: Places { stride, marks },
        }
    }

    // A data buffer by its position: at most 255 steps from the place before it that is known.
    pub fn find(&self, position: usize) -> DataBuffer
        requires { position < self.now.node.draft.parts.lent.len }
        ensures { result ≡ buffer_in self.now.node.parcel.now (place_of self.now.node.parcel.now self.now.node.draft.parts.lent.start position) }
    {
        let start = self.places.marks[position / self.places.stride];
        let at = skip(self.node.parcel, start, position % self.places.stride);
        DataBuffer {
            at,
            sent: sent_at(self.node.parcel, at),
        }
    }
}
