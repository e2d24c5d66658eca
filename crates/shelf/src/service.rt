// The shelf behind the wire form.
ghost use Rattle.shelf.specs.Served.{Serves, answer_of};

use crate::owner::Shelf;
use denials::Denial;
use wire::answer::Answer;
use wire::call::Call;
use wire::serve::Service;

impl Shelf<'_> {
    // The answer to a call, or why it is denied.
    fn served(&mut self, call: &Call<'_>, text: &mut [u8]) -> Result<Answer, Denial>
        ensures { Serves call.now self.old self.new text.old text.new (answer_of result) }
    {
        match call {
            Call::File { parcel } => Ok(Answer::Filed(self.file(parcel)?)),
            Call::Interleave { .. } => Ok(Answer::Halt),
            Call::Read { column, row } => Ok(Answer::Row(self.read(*column, *row, text)?)),
        }
    }
}

// It files parcels and reads rows.
impl Service for Shelf<'_> {
    fn answer(&mut self, call: &Call<'_>, text: &mut [u8]) -> Answer
        ensures { Serves call.now self.old self.new text.old text.new result }
    {
        self.served(call, text).unwrap_or_else(Answer::from)
    }
}
