// How many nodes each node has with all below it.
ghost use Rattle.std.specs.Prelude.{◌≡◌, ℕ, ◌+◌, ◌≤◌, map, length, drop};
ghost use Rattle.std.specs.List.{AllByRecursion};
ghost use Rattle.filing.specs.Row.{spanned, spans_of};
ghost use Rattle.filing.specs.Counts.{children_in};

use parcels::draft::Draft;

// The size of the node at a place that has so many children: 1, and what its children have.
fn span_at(spans: &[u16], at: usize, children: u8) -> u16
    requires few { 1 + spanned children (drop (at + 1) spans.now) ≤ 256 }
    requires low { at ≤ 256 }
    ensures { result ≡ 1 + spanned children (drop (at + 1) spans.now) }
{
    let mut span = 1u16;
    // No fold: tried, and its closure could not show that each sum fits, which is known by what the loop keeps.
    for _k in 0..children {
        let child = spans.get(at + usize::from(span));
        span += child.copied().unwrap_or(0);
    }
    span
}

// Writes the size of each node, the last node's first.
pub(crate) fn fill_spans(spans: &mut [u16], drafts: &[Draft])
    requires same { length drafts.now ≡ length spans.old }
    requires low { length drafts.now ≤ 256 }
    requires few { AllByRecursion (λ (s : ℕ). s ≤ 256) (spans_of (map children_in drafts.now)) }
    ensures { spans.new ≡ spans_of (map children_in drafts.now) }
{
    // By place, since a size is written by the sizes after it; `enumerate().rev()` would name the draft too and be no plainer.
    for i in (0..drafts.len()).rev() {
        spans[i] = span_at(spans, i, drafts[i].head.children);
    }
}
