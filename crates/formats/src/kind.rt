// The kind of a node: what its format says of its layout, without the letters.
ghost use Rattle.std.specs.Prelude.{◌≡◌};
ghost use Rattle.formats.specs.Kinds.{layout, offset_width};
ghost use Rattle.formats.specs.Spelled.{format_meant};

use crate::format::{Format, Width};

// `wide` as in `Format`.
#[derive(Clone, Copy, PartialEq, Eq, Debug, Default)]
pub enum Kind {
    Primitive(Width),
    Boolean,
    Text { wide: bool },
    View,
    List { wide: bool },
    Map,
    #[default]
    Struct,
    RunEnds,
    FixedList(u32),
}

impl From<Format<'_>> for Kind {
    // the kind that a format spells: its layout, and the width of its offsets
    ghost from_gives = { λ format kind. (layout kind ≡ (format_meant format).kind) × (offset_width kind ≡ (format_meant format).offset) };

    fn from(format: Format<'_>) -> Kind {
        match format {
            Format::Primitive(_, width) => Kind::Primitive(width),
            Format::Timestamp { .. } => Kind::Primitive(Width::Eight),
            Format::Boolean => Kind::Boolean,
            Format::Text { wide } => Kind::Text { wide },
            Format::View => Kind::View,
            Format::List { wide } => Kind::List { wide },
            Format::Map => Kind::Map,
            Format::Struct => Kind::Struct,
            Format::RunEnds => Kind::RunEnds,
            Format::FixedList(size) => Kind::FixedList(size),
        }
    }
}
