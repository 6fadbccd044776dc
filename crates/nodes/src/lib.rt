// A condition in memory: its nodes in prefix order. A connective's node holds its child count and the number of nodes below it, so a
// subtree is skipped in one step, and the root says how many nodes a tree has.
#![tactic(auto)]

ghost use Rattle.std.specs.Prelude.{◌≡◌, ℕ, ◌+◌, ◌≤◌, set};
ghost use Rattle.nodes.specs.Memory.{node_at, opposed, size_of, count_of};

#[derive(Clone, Copy)]
pub enum Node {
    Plain(bool),
    // and (true) or or, the child count, the nodes below
    Join(bool, u32, u32),
    // a boolean, or (false) its negation
    Flag(bool, u32),
    // x - y <= w - LARGEST_BOUND, or (false) its negation
    Bound(bool, u32, u32, u32),
}

impl Node {
    // The same node in the tree's negation.
    pub fn opposed(self) -> Node
        ensures { result ≡ opposed self }
    {
        match self {
            Node::Plain(b) => Node::Plain(!b),
            Node::Join(all, k, s) => Node::Join(!all, k, s),
            Node::Flag(so, p) => Node::Flag(!so, p),
            Node::Bound(so, x, y, w) => Node::Bound(!so, x, y, w),
        }
    }
}

// The node at i; past the end plain false.
pub fn node_at(ns: &[Node], i: usize) -> Node
    ensures { result ≡ node_at ns.now i }
{
    ns.get(i).copied().unwrap_or(Node::Plain(false))
}

// The nodes from i on; past the end there are none, and each reads as plain false.
pub fn rest(ns: &[Node], i: usize) -> &[Node]
    ensures { (x : ℕ) → node_at result.now x ≡ node_at ns.now (i + x) }
{
    &ns[i.min(ns.len())..]
}

// Puts a node at i; past the end it puts nothing. (With `get_mut`: tried, the proof did not close.)
pub fn put_node(ns: &mut [Node], i: usize, n: Node)
    ensures { ns.new ≡ set ns.old i n }
{
    if i < ns.len() {
        ns[i] = n;
    }
}

// How many children the connective at i has; an end has none.
pub fn count_at(ns: &[Node], i: usize) -> u32
    ensures { result ≡ count_of (node_at ns.now i) }
{
    match node_at(ns, i) {
        Node::Join(_, k, _) => k,
        _ => 0,
    }
}

// How many nodes the tree at i has.
pub fn size_at(ns: &[Node], i: usize) -> usize
    ensures { (result ≡ size_of (node_at ns.now i)) × (1 ≤ result) × (result ≤ 4294967296) }
{
    match node_at(ns, i) {
        Node::Join(_, _, s) => s as usize + 1,
        _ => 1,
    }
}
