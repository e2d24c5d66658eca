// A parcel, and where its reading stands: within it, and each buffer that was brought took bytes.
ghost use Rattle.std.specs.Prelude.{◌≤◌, length};

use crate::draft::Place;

#[derive(Drop)]
pub(crate) struct Reader<'a> {
    pub(crate) parcel: &'a [u8],
    pub(crate) place: Place,
    ghost inside: { place.at ≤ length parcel.now },
    ghost few: { place.brought ≤ place.at },
}
