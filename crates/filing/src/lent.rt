// Data buffers as they lie in a parcel, into the pools.
ghost use Rattle.std.specs.Prelude.{◌≡◌, ◌+◌, ◌≤◌, true, map, length};
ghost use Rattle.columns.specs.Sent.{number_of};
ghost use Rattle.pools.specs.Used.{Fit, Gains};
ghost use Rattle.parcels.specs.Lent.{readable, data_from, brought_from};
ghost use Rattle.filing.specs.Lent.{flat, parts_from};

use crate::copy::copy_part;
use parcels::sent::Sent;
use pools::pool::Pool;
use pools::records::Part;
use soundness::data_buffers::DataBuffers;

// Adds the numbers of a node's data buffers, new ones being numbered from `first` on, and says where they lie.
// The list is a part, not its `DataBuffers`: that a number has 32 bits is known by the parcel's bytes, and the check tells what
// each byte of a slice is where the slice is a parameter, but not where it is a field (tried by value, and with the field named
// before the loop).
pub(crate) fn put_numbers(
    lists: &mut Pool<'_, u32>,
    parcel: &[u8],
    lent: Part,
    first: usize,
) -> Part
    requires inside { readable parcel.now lent.start lent.len ≡ true }
    requires room { Fit lists.old lent.len }
    requires few { first + length (brought_from parcel.now lent.start lent.len) ≤ 1048576 }
    ensures added { Gains lists.old (map number_of (data_from parcel.now lent.start first lent.len)) lists.new }
    ensures lies { result ≡ record { start = lists.old.mark; len = lent.len } }
{
    let start = lists.mark;
    let mut next = first;
    for buffer in DataBuffers::of(parcel, lent) {
        match buffer.sent {
            Sent::Named(number) => lists.append(number as u32),
            Sent::Brought(_) => {
                lists.append(next as u32);
                next += 1;
            }
        }
    }
    Part {
        start,
        len: lent.len,
    }
}

// Adds the data buffers that a node brings, one after another.
pub(crate) fn put_brought(
    bytes: &mut Pool<'_, u8>,
    buffers: &mut Pool<'_, Part>,
    lent: DataBuffers<'_>,
)
    requires shelved { Fit buffers.old (length (brought_from lent.parcel.now lent.at lent.left)) }
    requires held { Fit bytes.old (length (flat (brought_from lent.parcel.now lent.at lent.left))) }
    ensures bytes { Gains bytes.old (flat (brought_from lent.entry.parcel.now lent.entry.at lent.entry.left)) bytes.new }
    ensures buffers { Gains buffers.old (parts_from bytes.old.mark (brought_from lent.entry.parcel.now lent.entry.at lent.entry.left)) buffers.new }
{
    let parcel = lent.parcel;
    for buffer in lent {
        if let Sent::Brought(len) = buffer.sent {
            buffers.append(copy_part(bytes, buffer.bytes(parcel, len)));
        }
    }
}
