// Judges a condition's nodes under an assignment: a node function calls a children function which calls the node function, nodes
// left falling, the rest of the nodes handed on: the form that document 01 names for each walk. Where no tree is laid out the answer means
// nothing, and the walk still ends.
#![tactic(auto)]

ghost use Rattle.std.specs.Prelude.{◌≡◌, List, cond, not, ℕ, ◌^◌, ◌≤◌, ◌<◌, ℤ, pos, ◌-ℤ◌};
ghost use Rattle.std.specs.Int.Signed.{mag};
ghost use Rattle.condition.specs.Limits.{question_room};
ghost use Rattle.condition.specs.Meaning.{value, is, at_most, met, joined, Tree, holds, given};
ghost use Rattle.nodes.specs.Memory.{node_at};
ghost use Rattle.nodes.specs.Laid.{shifted, join_of, nodes, Laid};
ghost use Rattle.judging.specs.Assigned.{assignment_of};
ghost use Rattle.judging.specs.Judged.{Judged, JudgedAll};

use condition::{LARGEST_BOUND, LAST_BOOLEAN, QUESTION_ROOM, Whole};
use nodes::{Node, node_at, rest, size_at};

// Boolean bits, and numbers for the names from 1 on, in order.
#[derive(Clone, Copy)]
pub struct Assignment<'a> {
    pub flags: u32,
    pub numbers: &'a [Whole],
}

impl Assignment<'_> {
    // Boolean p is the bit of weight 2^p: past the last there is none.
    #[tactic(auto, using(crate::proofs::Ends::no_bit), unfolding(condition::specs::Meaning::met, condition::specs::Meaning::given))]
    pub fn flag(self, p: u32) -> bool
        ensures { result ≡ met (is p) (assignment_of self.entry) }
    {
        p <= LAST_BOOLEAN && (self.flags >> p) % 2 == 1
    }

    // Number 0 is always 0, and number x stands at x - 1.
    #[tactic(auto, using(crate::proofs::Ends::number_zero, crate::proofs::Ends::number_placed, std::proofs::lemmas::Option::gets))]
    fn number(self, x: u32) -> i64
        ensures { (result ≡ value (assignment_of self.entry) x) × (mag result < 2 ^ 31) }
    {
        if x == 0 {
            return 0;
        }
        i64::from(self.numbers.get(x as usize - 1).copied().unwrap_or(0))
    }

    // x - y <= c, where c is kept as w.
    pub fn at_most(self, x: u32, y: u32, w: u32) -> bool
        ensures { result ≡ met (at_most x y (shifted w)) (assignment_of self.entry) }
    {
        self.number(x) - self.number(y) <= i64::from(w) - i64::from(LARGEST_BOUND)
    }
}

// An end, or (false) its negation.
pub fn turned(so: bool, v: bool) -> bool
    ensures { result ≡ cond so v (not v) }
{
    so == v
}

// `and` (true) or `or` of a child and the children after it.
pub fn both(all: bool, v: bool, u: bool) -> bool
    ensures { result ≡ joined (join_of all) v u }
{
    if all { v && u } else { v || u }
}

// The tree from node 0 on, of at most `left` nodes. `left` is no length of ns: a tree may go past the end, where each node is plain false.
#[cycle(children_node)]
fn node(ns: &[Node], left: usize, a: Assignment<'_>) -> bool
    ensures { Judged (node_at ns.now) left (assignment_of a.entry) result }
{
    if left == 0 {
        return false;
    }
    match node_at(ns, 0) {
        Node::Plain(b) => b,
        Node::Flag(so, p) => turned(so, a.flag(p)),
        Node::Bound(so, x, y, w) => turned(so, a.at_most(x, y, w)),
        Node::Join(all, k, _) => children(rest(ns, 1), left - 1, all, k, a),
    }
}

// The k trees from node 0 on, of at most `left` nodes together.
#[cycle(children_node)]
fn children(ns: &[Node], left: usize, all: bool, k: u32, a: Assignment<'_>) -> bool
    ensures { JudgedAll (node_at ns.now) left (join_of all) k (assignment_of a.entry) result }
{
    if k == 0 {
        return all;
    }
    let s = size_at(ns, 0);
    if left < s {
        return false;
    }
    let v = node(ns, s, a);
    let u = children(rest(ns, s), left - s, all, k - 1, a);
    both(all, v, u)
}

// Whether an assignment makes true the tree that stands from node 0 on.
pub fn judge(ns: &[Node], a: Assignment<'_>) -> bool
    ensures { (t : Tree) → Laid t (node_at ns.now) 0 → nodes t ≤ question_room → result ≡ holds t (assignment_of a.entry) }
{
    node(ns, QUESTION_ROOM, a)
}
