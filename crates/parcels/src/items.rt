// The items of a parcel, one after another. Each method says where it is denied, in a clause of its own: an error type of the
// reader with its one case, `Ends`, would still leave the place to be told.
ghost use Rattle.std.specs.Prelude.{◌≡◌, ℕ, ◌+◌, ◌<◌, ◌≤◌, List, length, take, drop, Some, None, Ok, Err};
ghost use Rattle.columns.specs.Sent.{buffer_length};
ghost use Rattle.columns.specs.Sent.{buffer as bufferRead};
ghost use Rattle.columns.specs.Heads.{head as headRead};
ghost use Rattle.parcels.specs.Reads.{outcome, within, stepped, head_of, Within};
ghost use Rattle.parcels.specs.Readers.{stands, Kept};

use crate::draft::{Head, Place};
use crate::reader::Reader;
use denials::Denial;
use pools::records::Part;

// The bit of a header's first byte that says that the node has a mask; the others say how long its format is.
const MASKED: u8 = 1 << 7;

// The length that a buffer or a data buffer begins with: four bytes, the highest first. `as`, since `usize` has no `From<u32>`.
pub fn length_of(ahead: &[u8]) -> Option<usize>
    ensures { elim result [
      | Some n ↦ (4 ≤ length ahead.now) × (n ≡ buffer_length ahead.now) × (n < 4294967296)
      | None ↦ length ahead.now < 4
    ] }
{
    let bytes = ahead.first_chunk::<4>()?;
    Some(u32::from_be_bytes(*bytes) as usize)
}

impl<'a> Reader<'a> {
    // At the front of a parcel.
    pub(crate) fn new(parcel: &'a [u8]) -> Reader<'a>
        ensures parcel { result.parcel.now ≡ parcel.now }
        ensures place { result.place ≡ record { at = 0; nodes = 0; brought = 0 } }
    {
        Reader {
            parcel,
            place: Place::default(),
        }
    }

    // The bytes that are not read yet.
    pub(crate) fn ahead(&self) -> &'a [u8]
        ensures { result.now ≡ drop self.now.place.at self.now.parcel.now }
    {
        &self.parcel[self.place.at..]
    }

    // An item of n bytes: where it lies.
    pub(crate) fn item(&mut self, n: usize) -> Result<Part, Denial>
        ensures reads { elim result [
          | Ok x ↦ (x ≡ record { start = self.old.place.at; len = n }) × (self.new.place ≡ stepped self.old.place n) × (self.old.place.at + n ≤ length self.old.parcel.now)
          | Err d ↦ (d ≡ Denial.Ends self.old.place.at) × (self.new.place ≡ self.old.place) × (length self.old.parcel.now < self.old.place.at + n)
        ] }
        ensures parcel { self.new.parcel.now ≡ self.old.parcel.now }
    {
        let start = self.place.at;
        if n > self.parcel.len() - start {
            return Err(Denial::Ends(start));
        }
        self.place.at += n;
        Ok(Part { start, len: n })
    }

    // An item of N bytes: the bytes.
    pub(crate) fn bytes<const N: usize>(&mut self) -> Result<[u8; N], Denial>
        ensures reads { elim result [
          | Ok x ↦ (x ≡ take N (drop self.old.place.at self.old.parcel.now)) × (self.new.place ≡ stepped self.old.place N) × (self.old.place.at + N ≤ length self.old.parcel.now)
          | Err d ↦ (d ≡ Denial.Ends self.old.place.at) × (self.new.place ≡ self.old.place) × (length self.old.parcel.now < self.old.place.at + N)
        ] }
        ensures parcel { self.new.parcel.now ≡ self.old.parcel.now }
    {
        let bytes = *self
            .ahead()
            .first_chunk::<N>()
            .ok_or(Denial::Ends(self.place.at))?;
        self.place.at += N;
        Ok(bytes)
    }

    // A buffer follows its byte length.
    pub(crate) fn buffer(&mut self) -> Result<Part, Denial>
        ensures reads { (bs : List (List ℕ)) → outcome (within self.old.parcel.now) (λ x. stands self.new bs) result ≡ bufferRead (stands self.old bs) }
        ensures kept { Kept self.old self.new }
        ensures inside { elim result [ Ok x ↦ Within self.old.parcel.now x × (x.len < 4294967296) | Err d ↦ d ≡ Denial.Ends self.new.place.at ] }
    {
        let len = length_of(self.ahead()).ok_or(Denial::Ends(self.place.at))?;
        let sent = self.item(4 + len)?;
        Ok(Part {
            start: sent.start + 4,
            len,
        })
    }

    // A node's 64 bits and its format string.
    pub(crate) fn head(&mut self) -> Result<Head, Denial>
        ensures reads { (bs : List (List ℕ)) → outcome (head_of self.old.parcel.now) (λ x. stands self.new bs) result ≡ headRead (stands self.old bs) }
        ensures kept { Kept self.old self.new }
        ensures inside { elim result [ Ok x ↦ Within self.old.parcel.now x.format × (x.format.len < 128) | Err d ↦ d ≡ Denial.Ends self.new.place.at ] }
    {
        let [first, high, low, children, a, b, c, d] = self.bytes::<8>()?;
        let format = self.item(usize::from(first % MASKED))?;
        Ok(Head {
            masked: first >= MASKED,
            format,
            label: u16::from_be_bytes([high, low]),
            children,
            rows: u32::from_be_bytes([a, b, c, d]),
        })
    }
}
