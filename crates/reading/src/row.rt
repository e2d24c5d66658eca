// The text of a row, with all that lies below it. Each function says what is written of any column that is stored at the
// place and can be read there. That it can be read is asked anew of each place and row, so no type keeps it.
ghost use Rattle.std.specs.Prelude.{◌≡◌, ◌<◌, not, if◌then◌else◌, [], ◌∷◌, length};
ghost use Rattle.columns.specs.Column.{Column, Columns};
ghost use Rattle.columns.specs.Says.{entry};
ghost use Rattle.pools.specs.Bits.{mask_bit, MaskThere};
ghost use Rattle.pools.specs.Store.{store, node_entry};
ghost use Rattle.reading.specs.Inked.{Wrote};
ghost use Rattle.reading.specs.Readable.{RowReadable, RowsReadable, FieldsReadable, row_text, rows_text, fields_text, ends_at, EndsIn};

use crate::ink::{Full, Ink};
use crate::shape::Shape;
use crate::shown::Shown;
use formats::kind::Kind;
use pools::records::{Node, Part};
use rows::ranges::range_at;
use rows::runs::entry_of;
use rows::tree::{next_child, node_at};
use rows::values::is_valid;

// A comma before every element but the first: a function, so that its two branches meet in one clause.
fn comma<I: Ink>(ink: &mut I, later: bool) -> Result<(), Full>
    ensures { Wrote I.room I.marked ink.old (if later then (44 ∷ []) else []) ink.new result }
{
    if later { ink.put(b',') } else { Ok(()) }
}

impl Shown<'_> {
    // The entry of a row, by the run ends of the node at a place.
    fn run_at(self, ends: usize, row: usize) -> usize
        requires there { ends < length (store self.pools.now).nodes }
        requires climb { EndsIn (store self.pools.now) (node_entry (store self.pools.now) ends) (node_entry (store self.pools.now) ends).kind }
        ensures { let P = store self.entry.pools.now in result ≡ entry (ends_at P (node_entry P ends) (node_entry P ends).kind) row }
    {
        let node = node_at(&self.pools.nodes, ends);
        let Kind::Primitive(width) = node.kind else {
            unreachable!()
        };
        let ends = Part {
            start: node.place,
            len: node.rows as usize,
        };
        entry_of(self.pools, width, ends, row as u64)
    }

    // Whether a row is null by its node's mask.
    fn is_null(self, node: &Node, row: usize) -> bool
        requires { MaskThere (store self.pools.now).bytes node.now.mask row }
        ensures { result ≡ not (mask_bit (store self.entry.pools.now).bytes node.now.mask row) }
    {
        !is_valid(&self.pools.bytes, node.mask, row)
    }

    // A row. A child has one level less.
    #[cycle(nesting)]
    pub(crate) fn put_row<I: Ink>(
        self,
        ink: &mut I,
        place: usize,
        row: usize,
        levels: u8,
    ) -> Result<(), Full>
        requires { ∥ ((c : Column) × RowReadable (store self.pools.now) place c row levels) ∥₁ }
        ensures { (c : Column) → RowReadable (store self.entry.pools.now) place c row levels → Wrote I.room I.marked ink.old (row_text (store self.entry.pools.now) c row) ink.new result }
    {
        let node = node_at(&self.pools.nodes, place);
        if self.is_null(&node, row) {
            return ink.put(b'-');
        }
        match Shape::from(node.kind) {
            Shape::Leaf => self.leaf(ink, &node, row),
            Shape::Ranges => {
                let rows = range_at(&self.pools.offsets, &node, row);
                ink.put(b'[')?;
                self.put_rows(ink, place + 1, rows, levels - 1)?;
                ink.put(b']')
            }
            Shape::Fields => {
                ink.put(b'{')?;
                self.put_fields(ink, place + 1, node.children, row, levels - 1)?;
                ink.put(b'}')
            }
            Shape::Runs => {
                let entry = self.run_at(place + 1, row);
                let values = next_child(&self.pools.nodes, place + 1);
                self.put_row(ink, values, entry, levels - 1)
            }
        }
    }

    // Some rows of the column at a place, with commas between.
    #[cycle(nesting)]
    fn put_rows<I: Ink>(self, ink: &mut I, place: usize, rows: Part, levels: u8) -> Result<(), Full>
        requires { ∥ ((c : Column) × RowsReadable (store self.pools.now) place c rows levels) ∥₁ }
        ensures { (c : Column) → RowsReadable (store self.entry.pools.now) place c rows levels → Wrote I.room I.marked ink.old (rows_text (store self.entry.pools.now) c rows) ink.new result }
    {
        for k in rows.start..rows.start + rows.len {
            comma(ink, k > rows.start)?;
            self.put_row(ink, place, k, levels)?;
        }
        Ok(())
    }

    // A row of each of some columns that lie one after the other, with commas between.
    #[cycle(nesting)]
    fn put_fields<I: Ink>(
        self,
        ink: &mut I,
        first: usize,
        count: u8,
        row: usize,
        levels: u8,
    ) -> Result<(), Full>
        requires { ∥ ((cs : Columns) × FieldsReadable (store self.pools.now) first cs count row levels) ∥₁ }
        ensures { (cs : Columns) → FieldsReadable (store self.entry.pools.now) first cs count row levels → Wrote I.room I.marked ink.old (fields_text (store self.entry.pools.now) cs row) ink.new result }
    {
        let mut place = first;
        for k in 0..count {
            comma(ink, k > 0)?;
            self.put_row(ink, place, row, levels)?;
            place = next_child(&self.pools.nodes, place);
        }
        Ok(())
    }
}
