// The buffers of a node.
ghost use Rattle.std.specs.Prelude.{◌≡◌, ℕ, ◌<◌, ◌≤◌, List, length, Ok, Err};
ghost use Rattle.columns.specs.Reading.{denied, each_of};
ghost use Rattle.columns.specs.Sent.{mask_if, buffer_if, data_buffer, data_buffers};
ghost use Rattle.columns.specs.Says.{span};
ghost use Rattle.denials.specs.Said.{said};
ghost use Rattle.parcels.specs.Reads.{outcome, within, mask_of, Reaches, LentAs, parts_read, SentAs, MaskWithin, Inside, name_in, or_empty};
ghost use Rattle.parcels.specs.Readers.{stands, Kept, SameNode};
ghost use Rattle.parcels.specs.Sents.{SentAt, name_sent};

use crate::draft::{Parts, Sends};
use crate::reader::Reader;
use crate::sent::Sent;
use denials::Denial;
use pools::records::Part;

impl Reader<'_> {
    // A buffer, where there is one.
    fn buffer_if(&mut self, wanted: bool) -> Result<Option<Part>, Denial>
        ensures reads { (bs : List (List ℕ)) → outcome (mask_of self.old.parcel.now) (λ x. stands self.new bs) result ≡ mask_if wanted (stands self.old bs) }
        ensures or_empty { (bs : List (List ℕ)) → outcome (λ x. within self.old.parcel.now (or_empty x)) (λ x. stands self.new bs) result ≡ buffer_if wanted (stands self.old bs) }
        ensures kept { Kept self.old self.new }
        ensures inside { elim result [ Ok x ↦ MaskWithin self.old.parcel.now x × ((or_empty x).len < 4294967296) | Err d ↦ d ≡ Denial.Ends self.new.place.at ] }
    {
        // `wanted.then(|| self.buffer())` was tried: what `then` promises leaves open what becomes of the reader
        if wanted {
            Ok(Some(self.buffer()?))
        } else {
            Ok(None)
        }
    }

    // A data buffer, brought or named. `self.item(sent.size())` was tried: the place after a named one then waits for its number,
    // and a list of them takes several times as long.
    pub(crate) fn data_buffer(&mut self) -> Result<Sent, Denial>
        ensures reads { (bs : List (List ℕ)) → elim result [
          | Ok x ↦ Reaches self.old.parcel.now self.old.place bs self.new.place (data_buffer (stands self.old bs))
          | Err d ↦ data_buffer (stands self.old bs) ≡ denied (said d)
        ] }
        ensures names { (bs : List (List ℕ)) → elim result [ Ok x ↦ name_in (data_buffer (stands self.old bs)) ≡ name_sent x | Err _ ↦ Unit {0} ] }
        ensures same { SameNode self.old self.new }
        ensures inside { elim result [ Ok x ↦ SentAt self.old.parcel.now self.old.place.at x | Err d ↦ d ≡ Denial.Ends self.new.place.at ] }
    {
        let sent = Sent::read(self.ahead()).ok_or(Denial::Ends(self.place.at))?;
        match sent {
            Sent::Brought(len) => {
                self.item(4 + len)?;
                self.place.brought += 1;
            }
            Sent::Named(_) => {
                self.item(4)?;
            }
        }
        Ok(sent)
    }

    // So many data buffers, one after another. A reader of its own walks the list, since its place stays in registers where that
    // of `self` is written at each step, and not inlined, since `node` leaves no registers for it.
    #[inline(never)]
    fn listed(&mut self, count: usize) -> Result<(), Denial>
        ensures reads { (bs : List (List ℕ)) → elim result [
          | Ok _ ↦ Reaches self.old.parcel.now self.old.place bs self.new.place (each_of (λ (i : ℕ). data_buffer) (span 0 count) (stands self.old bs))
          | Err d ↦ each_of (λ (i : ℕ). data_buffer) (span 0 count) (stands self.old bs) ≡ denied (said d)
        ] }
        ensures same { SameNode self.old self.new }
        ensures inside { elim result [ Ok _ ↦ Unit {0} | Err d ↦ d ≡ Denial.Ends self.new.place.at ] }
    {
        let mut list = Reader {
            parcel: self.parcel,
            place: self.place,
        };
        for _k in 0..count {
            if let Err(denial) = list.data_buffer() {
                self.place = list.place;
                return Err(denial);
            }
        }
        self.place = list.place;
        Ok(())
    }

    // A 16-bit count and its data buffers: where they start, and how many. Not by `buffer_if`, since a count and a list are read
    // and no buffer. Whether they are sent is told by the format, as there.
    fn lent_if(&mut self, wanted: bool) -> Result<Part, Denial>
        ensures reads { (bs : List (List ℕ)) → elim result [
          | Ok x ↦ LentAs self.old.parcel.now self.old.place bs x self.new.place (data_buffers wanted (stands self.old bs))
          | Err d ↦ data_buffers wanted (stands self.old bs) ≡ denied (said d)
        ] }
        ensures same { SameNode self.old self.new }
        ensures inside { elim result [ Ok x ↦ (x.start ≤ length self.old.parcel.now) × (x.len < 65536) | Err d ↦ d ≡ Denial.Ends self.new.place.at ] }
    {
        if !wanted {
            return Ok(Part {
                start: self.place.at,
                len: 0,
            });
        }
        let len = usize::from(u16::from_be_bytes(self.bytes::<2>()?));
        let start = self.place.at;
        self.listed(len)?;
        Ok(Part { start, len })
    }

    // The buffers of a node, in order: mask, first buffer, text, data buffers.
    pub(crate) fn parts(&mut self, masked: bool, sends: Sends) -> Result<Parts, Denial>
        ensures reads { (bs : List (List ℕ)) → elim result [
          | Ok x ↦ SentAs self.old.parcel.now self.old.place bs x self.new.place (parts_read masked sends.body sends.text sends.lent (stands self.old bs))
          | Err d ↦ parts_read masked sends.body sends.text sends.lent (stands self.old bs) ≡ denied (said d)
        ] }
        ensures same { SameNode self.old self.new }
        ensures inside { elim result [ Ok x ↦ Inside self.old.parcel.now x | Err d ↦ d ≡ Denial.Ends self.new.place.at ] }
    {
        let mask = self.buffer_if(masked)?;
        let body = self.buffer_if(sends.body)?.unwrap_or_default();
        let text = self.buffer_if(sends.text)?.unwrap_or_default();
        let lent = self.lent_if(sends.lent)?;
        Ok(Parts {
            mask,
            body,
            text,
            lent,
        })
    }
}
