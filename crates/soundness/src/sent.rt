// A data buffer of a node, as it lies in the parcel.
ghost use Rattle.std.specs.Prelude.{◌≡◌, ◌+◌, ◌≤◌, length};
ghost use Rattle.columns.specs.Says.{slice};

use parcels::sent::Sent;
use pools::records::Part;

// Where a data buffer stands in the parcel, and how it is sent.
#[derive(Clone, Copy, PartialEq, Eq, Debug)]
pub struct DataBuffer {
    pub at: usize,
    pub sent: Sent,
}

impl DataBuffer {
    // The bytes of one that is brought, `len` of them: they follow the four that tell how many there are.
    pub fn bytes<'a>(self, parcel: &'a [u8], len: usize) -> &'a [u8]
        requires { self.at + 4 + len ≤ length parcel.now }
        ensures { result.now ≡ slice parcel.now (self.at + 4) len }
    {
        let part = Part {
            start: self.at + 4,
            len,
        };
        part.of(parcel)
    }
}
