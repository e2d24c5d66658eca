ghost use Rattle.std.specs.Prelude.{◌≡◌};
ghost use Rattle.std.specs.List.{AllByRecursion};
ghost use Rattle.parcels.specs.Reads.{within};
ghost use Rattle.parcels.specs.Drafts.{Drafted};
ghost use Rattle.soundness.specs.Props.{drafted_prop, all_drafted_prop};

use crate::data_buffers::DataBuffers;
use parcels::draft::Draft;

// A node as it is sent: its draft, and the parcel that its parts lie in.
#[derive(Clone, Copy)]
pub struct SentNode<'a> {
    pub parcel: &'a [u8],
    pub draft: Draft,
    pub ghost drafted: { Drafted parcel.now draft } by { drafted_prop parcel.now draft },
}

// The nodes of a column as they are sent: their drafts in parcel order, and the parcel that their parts lie in.
#[derive(Clone, Copy)]
pub struct SentNodes<'a> {
    pub parcel: &'a [u8],
    pub drafts: &'a [Draft],
    pub ghost drafted: { AllByRecursion (Drafted parcel.now) drafts.now } by { all_drafted_prop parcel.now drafts.now },
}

impl<'a> SentNode<'a> {
    pub fn rows(self) -> usize
        ensures { result ≡ self.entry.draft.head.rows }
    {
        self.draft.head.rows as usize
    }

    // Its first buffer after the mask.
    pub fn body(self) -> &'a [u8]
        ensures { result.now ≡ within self.entry.parcel.now self.entry.draft.parts.body }
    {
        self.draft.parts.body.of(self.parcel)
    }

    // Its data buffers.
    pub fn lent(self) -> DataBuffers<'a>
        ensures among { result.parcel.now ≡ self.entry.parcel.now }
        ensures first { result.at ≡ self.entry.draft.parts.lent.start }
        ensures count { result.left ≡ self.entry.draft.parts.lent.len }
    {
        DataBuffers::of(self.parcel, self.draft.parts.lent)
    }
}
