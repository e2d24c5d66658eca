// A node's data buffers, one after another.
ghost use Rattle.std.specs.Prelude.{◌≡◌, true};
ghost use Rattle.parcels.specs.Lent.{readable};

use crate::lents::{after, sent_at};
use crate::sent::DataBuffer;
use pools::records::Part;

// The data buffers that are left, from a place of the parcel on.
#[derive(Drop)]
pub struct DataBuffers<'a> {
    pub parcel: &'a [u8],
    pub at: usize,
    pub left: usize,
    pub ghost listed: { readable parcel.now at left ≡ true },
}

impl<'a> DataBuffers<'a> {
    // All those of a list.
    pub fn of(parcel: &'a [u8], lent: Part) -> DataBuffers<'a>
        requires { readable parcel.now lent.start lent.len ≡ true }
        ensures among { result.parcel.now ≡ parcel.now }
        ensures first { result.at ≡ lent.start }
        ensures count { result.left ≡ lent.len }
    {
        DataBuffers {
            parcel,
            at: lent.start,
            left: lent.len,
        }
    }
}

impl<'a> Iterator for DataBuffers<'a> {
    ghost use Rattle.std.specs.Iterator.{YieldsFirst, item_count};
    ghost use Rattle.soundness.specs.Buffers.{buffers_from};

    type Item = DataBuffer;

    ghost next_gives = { YieldsFirst (λ s. buffers_from s.parcel.now s.at s.left) };

    ghost remaining = { item_count (λ s. buffers_from s.parcel.now s.at s.left) };

    fn next(&mut self) -> Option<DataBuffer> {
        if self.left == 0 {
            return None;
        }
        let at = self.at;
        let sent = sent_at(self.parcel, at);
        self.at = after(self.parcel, at);
        self.left -= 1;
        Some(DataBuffer { at, sent })
    }
}
