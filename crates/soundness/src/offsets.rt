ghost use Rattle.std.specs.Prelude.{◌≡◌};
ghost use Rattle.columns.specs.SoundTests.{offsets_sound};
ghost use Rattle.formats.specs.Spelled.{bytes_of};
ghost use Rattle.soundness.specs.Walks.{all_values};

use crate::values::{half, last_in_order};
use formats::format::Width;

// Offsets start at 0 or above and never fall. The last is within the bound, and not below 0 when it is read as signed.
pub(crate) fn sound_offsets(body: &[u8], width: Width, bound: u64) -> bool
    ensures { result ≡ offsets_sound (bytes_of width) (all_values (bytes_of width) body.now) bound }
{
    let last = last_in_order(body, width, |low, next| low <= next);
    last.is_some_and(|end| end <= bound && end < half(width))
}
