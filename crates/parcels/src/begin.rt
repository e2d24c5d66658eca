// A node but for its children.
ghost use Rattle.std.specs.Prelude.{◌≡◌, ℕ, ◌≤◌, List, Ok, Err};
ghost use Rattle.columns.specs.Reading.{denied};
ghost use Rattle.columns.specs.Parcel.{node_read};
ghost use Rattle.denials.specs.Said.{said};
ghost use Rattle.parcels.specs.Roles.{role_of};
ghost use Rattle.parcels.specs.Opens.{OpenedAs, OpenedInside};
ghost use Rattle.parcels.specs.Readers.{stands};

use crate::allow::{allowed, sends};
use crate::draft::{Head, Parts, Role};
use crate::reader::Reader;
use denials::Denial;
use formats::format::{Format, read_format};

#[derive(Clone, Copy)]
pub(crate) struct Opened<'a> {
    pub(crate) head: Head,
    pub(crate) format: Format<'a>,
    pub(crate) parts: Parts,
}

impl<'a> Reader<'a> {
    pub(crate) fn begin(&mut self, levels: u8, role: Role) -> Result<Opened<'a>, Denial>
        requires { self.old.place.nodes ≤ 256 }
        ensures reads { (bs : List (List ℕ)) → elim result [
          | Ok x ↦ OpenedAs self.old.parcel.now self.old.place bs levels (role_of role) x self.new.place
          | Err d ↦ ((before : ℕ) → node_read before levels (role_of role) (stands self.old bs) ≡ denied (said d))
        ] }
        ensures inside { elim result [ Ok x ↦ OpenedInside self.old.parcel.now self.old.place levels x self.new.place | Err _ ↦ Unit {0} ] }
        ensures parcel { self.new.parcel.now ≡ self.old.parcel.now }
    {
        let me = self.place.nodes;
        self.place.nodes += 1;
        let head = self.head()?;
        let format = read_format(head.format.of(self.parcel)).ok_or(Denial::Unknown(me))?;
        if !allowed(levels, role, format, head, me + 1) {
            return Err(Denial::Misplaced(me));
        }
        let parts = self.parts(head.masked, sends(format))?;
        Ok(Opened {
            head,
            format,
            parts,
        })
    }
}
