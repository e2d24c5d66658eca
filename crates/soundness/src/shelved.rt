ghost use Rattle.std.specs.List.{AllByRecursion};
ghost use Rattle.parcels.specs.Reads.{Within};
ghost use Rattle.soundness.specs.Props.{shelved_prop};

use crate::sent::DataBuffer;
use parcels::sent::Sent;
use pools::records::Part;

// The data buffers that were shelved before, by number: the parts of a pool of bytes that they are.
#[derive(Clone, Copy)]
pub struct Shelved<'a> {
    pub bytes: &'a [u8],
    pub buffers: &'a [Part],
    pub ghost inside: { AllByRecursion (Within bytes.now) buffers.now } by { shelved_prop bytes.now buffers.now },
}

impl<'a> Shelved<'a> {
    ghost use Rattle.std.specs.Prelude.{◌≡◌};
    ghost use Rattle.soundness.specs.Sources.{Told, source_at};

    // The bytes of a node's data buffer: shelved before, or brought here. A number that was not shelved has none.
    pub(crate) fn source(self, parcel: &'a [u8], buffer: DataBuffer) -> &'a [u8]
        requires { Told parcel.now buffer }
        ensures { result.now ≡ source_at parcel.now self.entry.bytes.now self.entry.buffers.now buffer.at }
    {
        match buffer.sent {
            Sent::Brought(len) => buffer.bytes(parcel, len),
            Sent::Named(number) => match self.buffers.get(number) {
                Some(part) => part.of(self.bytes),
                None => &[],
            },
        }
    }
}
