// Reading a row of a column into a buffer: first the text is measured, and if it fits it is written.
ghost use Rattle.std.specs.Prelude.{◌≡◌, length, nat_le, nat_lt, get_or};
ghost use Rattle.std.specs.Option.{IfSome, is_some};
ghost use Rattle.columns.specs.Column.{Column};
ghost use Rattle.columns.specs.Ledger.{Shelf, reads, answer};
ghost use Rattle.columns.specs.Limits.{most_levels};
ghost use Rattle.columns.specs.Pools.{Entries};
ghost use Rattle.pools.specs.Kept.{Ready, Standing};
ghost use Rattle.pools.specs.Store.{store, no_column};
ghost use Rattle.pools.specs.Used.{used};
ghost use Rattle.reading.specs.Readable.{RowReadable, row_text};
ghost use Rattle.reading.specs.Answers.{Placed, Filled, ShelfReadable, Gives};

use crate::ink::Full;
use crate::pen::{Gauge, Pen};
use crate::shown::Shown;
use denials::Denial;
use pools::pools::Pools;
use pools::records::ColumnEntry;
use rows::tree::node_at;

// A column has at most so many levels.
const MOST_LEVELS: u8 = 8;

impl Shown<'_> {
    // Whether the text of a row fits into a buffer with room for so many bytes.
    fn fits(self, place: usize, row: usize, room: usize) -> bool
        requires { ∥ ((c : Column) × RowReadable (store self.pools.now) place c row most_levels) ∥₁ }
        ensures { (c : Column) → RowReadable (store self.entry.pools.now) place c row most_levels → result ≡ nat_le (length (row_text (store self.entry.pools.now) c row)) room }
    {
        self.put_row(&mut Gauge { room }, place, row, MOST_LEVELS)
            .is_ok()
    }

    // Writes the text of a row to the front of a buffer, or as much of it as there is room for.
    fn write(self, place: usize, row: usize, text: &mut [u8]) -> Result<usize, Full>
        requires { ∥ ((c : Column) × RowReadable (store self.pools.now) place c row most_levels) ∥₁ }
        ensures { (c : Column) → RowReadable (store self.entry.pools.now) place c row most_levels → Filled result (row_text (store self.entry.pools.now) c row) text.old text.new }
    {
        let mut pen = Pen { text, place: 0 };
        self.put_row(&mut pen, place, row, MOST_LEVELS)?;
        Ok(pen.place)
    }

    // The text of a row of the column at a place, written to the front of a buffer; or nothing where it is longer.
    fn row_text(self, place: usize, row: usize, text: &mut [u8]) -> Option<usize>
        requires { ∥ ((c : Column) × RowReadable (store self.pools.now) place c row most_levels) ∥₁ }
        ensures { (c : Column) → RowReadable (store self.entry.pools.now) place c row most_levels → Placed result (row_text (store self.entry.pools.now) c row) text.old text.new }
    {
        if self.fits(place, row, text.len()) {
            self.write(place, row, text).ok()
        } else {
            None
        }
    }
}

// The entry of a column, where there is one of this number.
fn find_column<'a>(pools: &'a Pools<'_>, column: u32) -> Option<&'a ColumnEntry>
    requires { Standing pools.now.columns }
    ensures there { is_some result ≡ nat_lt column pools.now.columns.mark }
    ensures entry { IfSome result (λ e. e.now ≡ get_or (used pools.now.columns) column no_column) }
{
    pools.columns.used().get(column as usize)
}

// Reads a row of a column of the shelf, as the ledger answers it. That the marks are in range stays a clause: the pools are the
// caller's.
pub fn read(pools: &Pools<'_>, column: u32, row: usize, text: &mut [u8]) -> Result<usize, Denial>
    requires ready { Ready pools.now }
    requires given { ∥ ((s : Shelf) × ShelfReadable (store pools.now) s) ∥₁ }
    ensures { (lengths : Entries) (s : Shelf) → ShelfReadable (store pools.now) s → Gives result (answer lengths s (reads column row (length text.old))) text.old text.new }
{
    let entry = find_column(pools, column).ok_or(Denial::NoColumn(column))?;
    let root = entry.root;
    if row >= node_at(&pools.nodes, root).rows as usize {
        return Err(Denial::Outside(row));
    }
    let shown = Shown { pools };
    shown
        .row_text(root, row, text)
        .ok_or(Denial::Text(text.len()))
}
