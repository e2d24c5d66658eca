// The nodes of a parcel, each with its children.
ghost use Rattle.std.specs.Prelude.{◌≡◌, ℕ, ◌<◌, ◌≤◌, List, length, take, Ok, Err};
ghost use Rattle.std.specs.List.{AllByRecursion};
ghost use Rattle.columns.specs.Reading.{denied};
ghost use Rattle.columns.specs.Parcel.{node_read, parcel_read};
ghost use Rattle.denials.specs.Said.{said};
ghost use Rattle.parcels.specs.Roles.{role_of};
ghost use Rattle.parcels.specs.Drafts.{below_more, FoundAs, FoundInside, Outlined, Drafted};
ghost use Rattle.parcels.specs.Readers.{stands};

use crate::allow::child_role;
use crate::draft::{Below, Draft, Role};
use crate::reader::Reader;
use denials::Denial;
use formats::kind::Kind;

const MOST_LEVELS: u8 = 8;

impl Below {
    // Of no children.
    const NONE: Below = Below {
        first: 0,
        second: 0,
        alike: true,
    };

    // With child k, which has so many rows, for a node of `own` rows.
    fn with(self, k: u8, rows: u32, own: u32) -> Below
        ensures { result ≡ below_more self k rows own }
    {
        Below {
            first: if k == 0 { rows } else { self.first },
            second: if k == 1 { rows } else { self.second },
            alike: self.alike && rows == own,
        }
    }
}

impl Reader<'_> {
    // A node with its children; each is drafted at its number. The answer is its rows.
    pub(crate) fn node(
        &mut self,
        levels: u8,
        role: Role,
        drafts: &mut [Draft],
    ) -> Result<u32, Denial>
        requires few { self.old.place.nodes ≤ 256 }
        requires space { 256 ≤ length drafts.old }
        ensures reads { (bs : List (List ℕ)) (before : ℕ) → elim result [
          | Ok x ↦ FoundAs self.old.parcel.now before self.old.place bs levels (role_of role) x self.new.place drafts.new
          | Err d ↦ node_read before levels (role_of role) (stands self.old bs) ≡ denied (said d)
        ] }
        ensures inside { elim result [ Ok _ ↦ FoundInside self.old.parcel.now self.old.place self.new.place drafts.old drafts.new | Err _ ↦ Unit {0} ] }
        ensures parcel { self.new.parcel.now ≡ self.old.parcel.now }
    {
        let me = self.place.nodes;
        let opened = self.begin(levels, role)?;
        let own = opened.head.rows;
        let mut below = Below::NONE;
        for k in 0..opened.head.children {
            let child = child_role(opened.format, own, k);
            let rows = self.node(levels - 1, child, drafts)?;
            below = below.with(k, rows, own);
        }
        drafts[me] = Draft {
            kind: Kind::from(opened.format),
            role,
            head: opened.head,
            parts: opened.parts,
            below,
        };
        Ok(own)
    }

    // Nothing may follow the last node.
    fn at_end(&self) -> Result<(), Denial>
        ensures { elim result [ Ok _ ↦ length self.now.parcel.now ≤ self.now.place.at | Err d ↦ (d ≡ Denial.Ends self.now.place.at) × (self.now.place.at < length self.now.parcel.now) ] }
    {
        if self.place.at < self.parcel.len() {
            Err(Denial::Ends(self.place.at))
        } else {
            Ok(())
        }
    }
}

// The column of a parcel, whole: how many nodes are drafted.
pub fn outline(parcel: &[u8], drafts: &mut [Draft]) -> Result<usize, Denial>
    requires { 256 ≤ length drafts.old }
    ensures reads { (shelved : List (List ℕ)) → elim result [
      | Ok n ↦ Outlined shelved parcel.now (take n drafts.new)
      | Err d ↦ parcel_read shelved parcel.now ≡ denied (said d)
    ] }
    ensures inside { elim result [ Ok n ↦ (n ≤ 256) × AllByRecursion (Drafted parcel.now) (take n drafts.new) | Err _ ↦ Unit {0} ] }
{
    let mut reader = Reader::new(parcel);
    reader.node(MOST_LEVELS, Role::Free, drafts)?;
    reader.at_end()?;
    Ok(reader.place.nodes)
}
