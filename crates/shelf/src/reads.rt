// Reading.
ghost use Rattle.std.specs.Prelude.{List, length};
ghost use Rattle.columns.specs.Ledger.{Call, reads, shelf_of, answer};
ghost use Rattle.reading.specs.Answers.{Gives};
ghost use Rattle.shelf.specs.Stands.{Stands, lengths, ledger};

use crate::owner::Shelf;
use denials::Denial;
use reading::read::read;

impl Shelf<'_> {
    // The text of a row, at the front of `text`, and its length; or why there is none. Whatever calls led here, the ledger
    // of those calls answers so.
    pub fn read(&self, column: u32, row: u32, text: &mut [u8]) -> Result<usize, Denial>
        ensures { (calls : List Call) → Stands calls self.now.pools (length self.now.slip.now)
            → Gives result (answer (lengths self.now.pools (length self.now.slip.now)) (shelf_of (ledger self.now.pools (length self.now.slip.now) calls)) (reads column row (length text.old))) text.old text.new }
    {
        read(&self.pools, column, row as usize, text)
    }
}
