// The tree of the streams' first live LSNs, in one vector.
ghost use Rattle.std.specs.Prelude.{◌≡◌, ◌+◌, ◌*◌, ◌<◌, length, vec_capacity, vec_len};
ghost use Rattle.clfs_tail.specs.declared.tree.Node.{Node};
ghost use Rattle.clfs_tail.specs.Tree.{lesser, least_at, least_below, firsts_of, IsTree, IsTreeBut};

use clfs_lsn::Lsn;

/// A stream's place in the tree.
#[derive(Clone, Copy)]
pub struct Node {
    /// The stream's first live LSN.
    pub first: Option<Lsn>,
    /// The least one of this stream and of those below it.
    pub least: Option<Lsn>,
}

/// The lesser of two LSNs, or the one that there is.
pub fn lesser(a: Option<Lsn>, b: Option<Lsn>) -> Option<Lsn>
    ensures { result ≡ lesser a b }
{
    match (a, b) {
        (Some(a), Some(b)) => Some(a.min(b)),
        (Some(a), None) => Some(a),
        (None, b) => b,
    }
}

/// The least LSN of the subtree at a place, where there is one.
pub fn least_at(nodes: &[Node], place: usize) -> Option<Lsn>
    ensures { result ≡ least_at nodes.now place }
{
    nodes.get(place)?.least
}

/// The least of a stream's own first live LSN and of those below it, by its children.
fn least_below(nodes: &[Node], place: usize) -> Option<Lsn>
    requires { place < length nodes.now }
    ensures { result ≡ least_below nodes.now place }
{
    let left = least_at(nodes, 2 * place + 1);
    let right = least_at(nodes, 2 * place + 2);
    lesser(nodes[place].first, lesser(left, right))
}

/// Makes the tree right again after a stream's first live LSN has changed: that node and those above it.
pub fn settle(nodes: &mut Vec<Node>, place: usize)
    requires inside { place < vec_len nodes.old }
    requires tree { IsTreeBut nodes.old.items place }
    ensures tree { IsTree nodes.new.items }
    ensures firsts { firsts_of nodes.new.items ≡ firsts_of nodes.old.items }
    ensures len { vec_len nodes.new ≡ vec_len nodes.old }
    ensures capacity { vec_capacity nodes.new ≡ vec_capacity nodes.old }
{
    let mut at = place;
    while at > 0 {
        nodes[at].least = least_below(nodes, at);
        at = (at - 1) / 2;
    }
    nodes[0].least = least_below(nodes, 0);
}
