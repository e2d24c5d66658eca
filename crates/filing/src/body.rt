// How a node's buffers are taken, by its kind.
ghost use Rattle.std.specs.Prelude.{◌≡◌};
ghost use Rattle.pools.specs.Marked.{marks_of};
ghost use Rattle.parcels.specs.Reads.{within};
ghost use Rattle.filing.specs.Plans.{place_in};
ghost use Rattle.filing.specs.News.{plan_in};
ghost use Rattle.soundness.specs.Sizes.{Filled};
ghost use Rattle.filing.specs.Bodies.{BodyRoom, BodyGained};

use crate::read::put_entries;
use formats::format::Width;
use formats::kind::Kind;
use parcels::draft::Draft;
use pools::pools::Pools;
use pools::records::{Part, View};
use soundness::node::SentNode;

// What is taken byte by byte.
pub(crate) fn plain_bytes<'a>(node: SentNode<'a>) -> &'a [u8]
    ensures { result.now ≡ within node.entry.parcel.now (plan_in node.entry.draft).plain }
{
    match node.draft.kind {
        Kind::Primitive(Width::One) | Kind::Boolean => node.body(),
        Kind::Text { .. } => node.draft.parts.text.of(node.parcel),
        _ => &[],
    }
}

// The data buffers that are listed.
pub(crate) fn listed_part(draft: Draft) -> Part
    ensures { result ≡ (plan_in draft).list }
{
    match draft.kind {
        Kind::View => draft.parts.lent,
        _ => Part::default(),
    }
}

// Adds what a node's body holds to the pool that its kind has for it, and says where it starts. Bytes and bits start at
// `plain`, where they were copied.
pub(crate) fn put_body(pools: &mut Pools<'_>, node: SentNode<'_>, plain: usize) -> usize
    requires room { BodyRoom pools.old (plan_in node.draft) }
    requires filled { Filled node.draft }
    ensures gained { BodyGained pools.old (plan_in node.entry.draft) (within node.entry.parcel.now node.entry.draft.parts.body) pools.new }
    ensures start { result ≡ place_in node.entry.draft.kind plain (marks_of pools.old) }
{
    let body = node.body();
    let rows = node.rows();
    match node.draft.kind {
        Kind::Primitive(Width::One) | Kind::Boolean => plain,
        Kind::Primitive(Width::Two) => put_entries::<u16, u16>(&mut pools.shorts, body, rows),
        Kind::Primitive(Width::Four) => put_entries::<u32, u32>(&mut pools.words, body, rows),
        Kind::Primitive(Width::Eight) => put_entries::<u64, u64>(&mut pools.longs, body, rows),
        Kind::Text { wide: true } | Kind::List { wide: true } => {
            put_entries::<u64, u64>(&mut pools.offsets, body, rows + 1)
        }
        Kind::Text { wide: false } | Kind::List { wide: false } | Kind::Map => {
            put_entries::<u32, u64>(&mut pools.offsets, body, rows + 1)
        }
        Kind::View => put_entries::<View, View>(&mut pools.views, body, rows),
        Kind::Struct | Kind::RunEnds | Kind::FixedList(_) => 0,
    }
}
