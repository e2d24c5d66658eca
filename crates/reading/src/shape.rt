// How the rows of a node are made of its children's.
ghost use Rattle.std.specs.Prelude.{◌≡◌};
ghost use Rattle.reading.specs.Readable.{shape_of};

use formats::kind::Kind;

#[derive(Clone, Copy, PartialEq, Eq, Debug)]
pub enum Shape {
    Leaf,
    Ranges,
    Fields,
    Runs,
}

impl From<Kind> for Shape {
    // how the rows of a node of this kind are made
    ghost from_gives = { λ kind shape. shape ≡ shape_of kind };

    fn from(kind: Kind) -> Shape {
        match kind {
            Kind::Primitive(_) | Kind::Boolean | Kind::Text { .. } | Kind::View => Shape::Leaf,
            Kind::List { .. } | Kind::Map | Kind::FixedList(_) => Shape::Ranges,
            Kind::Struct => Shape::Fields,
            Kind::RunEnds => Shape::Runs,
        }
    }
}
