ghost use Rattle.std.specs.Prelude.{◌≡◌, ◌&&◌, nat_le};
ghost use Rattle.columns.specs.Format.{highest};
ghost use Rattle.columns.specs.SoundTests.{climbs};
ghost use Rattle.formats.specs.Spelled.{bytes_of};
ghost use Rattle.soundness.specs.Walks.{all_values};

use crate::values::{half, last_in_order};
use formats::format::Width;

// Run ends start at 1 or above, climb strictly, and end at the top, which their signed width can hold.
pub(crate) fn sound_ends(body: &[u8], width: Width, top: u64) -> bool
    ensures { result ≡ (climbs 0 (all_values (bytes_of width) body.now) top && nat_le top (highest (bytes_of width))) }
{
    last_in_order(body, width, |low, next| low < next) == Some(top) && top < half(width)
}
