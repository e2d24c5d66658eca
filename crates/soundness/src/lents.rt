// A data buffer in the parcel.
ghost use Rattle.std.specs.Prelude.{◌≡◌, ◌+◌, ◌≤◌, true, length};
ghost use Rattle.parcels.specs.Lent.{data_size, place_of, readable};
ghost use Rattle.parcels.specs.Sents.{SentAt};

use parcels::sent::Sent;

// How the data buffer at a place is sent.
pub fn sent_at(parcel: &[u8], at: usize) -> Sent
    requires { at + data_size parcel.now at ≤ length parcel.now }
    ensures { SentAt parcel.now at result }
{
    Sent::read(&parcel[at..]).unwrap()
}

// The place after the data buffer at a place. Not by `Sent::size`: with it, each step of a walk takes a quarter longer.
pub fn after(parcel: &[u8], at: usize) -> usize
    requires { at + data_size parcel.now at ≤ length parcel.now }
    ensures { result ≡ at + data_size parcel.now at }
{
    match sent_at(parcel, at) {
        Sent::Brought(len) => at + 4 + len,
        Sent::Named(_) => at + 4,
    }
}

// The place after so many data buffers. By places alone: `DataBuffers::nth` takes longer, since it counts what is left too.
pub(crate) fn skip(parcel: &[u8], start: usize, count: usize) -> usize
    requires { readable parcel.now start count ≡ true }
    ensures { result ≡ place_of parcel.now start count }
{
    let mut at = start;
    for _k in 0..count {
        at = after(parcel, at);
    }
    at
}
