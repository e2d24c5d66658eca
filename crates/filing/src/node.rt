// A node of a parcel into the pools.
ghost use Rattle.pools.specs.Marked.{marks_of};
ghost use Rattle.filing.specs.News.{Room, Gained, node_news};
ghost use Rattle.soundness.specs.Sizes.{Filled};

use crate::body::{listed_part, put_body};
use crate::copy::copy_parts;
use crate::lent::{put_brought, put_numbers};
use pools::pools::Pools;
use pools::records::Node;
use soundness::node::SentNode;

// Adds all that a node holds, and its entry; `span` counts the nodes of its subtree.
pub(crate) fn put_node(pools: &mut Pools<'_>, node: SentNode<'_>, span: u16)
    requires room { Room pools.old (node_news node.parcel.now node.draft span (marks_of pools.old)) }
    requires filled { Filled node.draft }
    ensures { Gained pools.old (node_news node.entry.parcel.now node.entry.draft span (marks_of pools.old)) pools.new }
{
    let copied = copy_parts(&mut pools.bytes, node);
    let place = put_body(pools, node, copied.plain.start);
    let draft = node.draft;
    let listed = listed_part(draft);
    let buffers = put_numbers(&mut pools.lists, node.parcel, listed, pools.buffers.mark);
    put_brought(&mut pools.bytes, &mut pools.buffers, node.lent());
    pools.nodes.append(Node {
        kind: draft.kind,
        format: copied.format,
        label: draft.head.label,
        rows: draft.head.rows,
        children: draft.head.children,
        span,
        mask: copied.mask,
        place,
        text: copied.plain,
        buffers,
    });
}
