ghost use Rattle.std.specs.Prelude.{◌≡◌, not, length};
ghost use Rattle.columns.specs.Column.{bytes_for};
ghost use Rattle.columns.specs.Masks.{some_null};
ghost use Rattle.columns.specs.Contents.{bits_in};

use pools::bits::bit;

// No row is null by the mask.
pub(crate) fn all_valid(mask: &[u8], rows: usize) -> bool
    requires { length mask.now ≡ bytes_for rows }
    ensures { result ≡ not (some_null (bits_in rows mask.now)) }
{
    (0..rows).all(|i| bit(mask[i / 8], i % 8))
}
