// One walk of a condition's nodes under an assignment tells for every end at once whether turning that end turns the root, which is
// whether the end's critical constraint holds there. A node function calls a children function which calls the node function, nodes left
// falling, the rest of the nodes handed on, as in judging. Where no tree is laid out the marks mean nothing, and the walk still ends.
#![tactic(auto)]

ghost use Rattle.std.specs.Prelude.{◌≡◌, ℕ, ◌≤◌, ◌<◌, cond, length, get_or};
ghost use Rattle.nodes.specs.Memory.{node_at};
ghost use Rattle.judging.specs.Assigned.{assignment_of};
ghost use Rattle.turning.specs.Turned.{Ends, Turns, TurnsAll, Tells};

use condition::QUESTION_ROOM;
use judging::{Assignment, both, turned};
use nodes::{Node, node_at, rest, size_at};

// What a walk saw: whether the trees are true, and how many ends they have, each of which now has its mark.
#[derive(Clone, Copy)]
struct Seen {
    value: bool,
    ends: usize,
}

// Clears marks, unless they stay.
fn clear(stay: bool, marks: &mut [Option<bool>])
    ensures { (k : ℕ) → get_or marks.new k None ≡ cond stay (get_or marks.old k None) None }
{
    if !stay {
        marks.fill(None);
    }
}

// An end that is v, alone: it turns itself.
fn end(v: bool, marks: &mut [Option<bool>]) -> Seen
    requires { 0 < length marks.old }
    ensures { Ends v result.value result.ends marks.new }
{
    marks[0] = Some(v);
    Seen { value: v, ends: 1 }
}

// The tree from node 0 on, of at most `left` nodes: the marks of its ends stand first. `left` is no length of ns: a tree may go past the
// end, where each node is plain false.
#[cycle(children_node)]
fn node(ns: &[Node], left: usize, a: Assignment<'_>, marks: &mut [Option<bool>]) -> Seen
    requires { left ≤ length marks.old }
    ensures { Turns (node_at ns.now) left (assignment_of a.entry) result.value result.ends marks.new }
{
    if left == 0 {
        return Seen {
            value: false,
            ends: 0,
        };
    }
    match node_at(ns, 0) {
        Node::Plain(b) => Seen { value: b, ends: 0 },
        Node::Flag(so, p) => end(turned(so, a.flag(p)), marks),
        Node::Bound(so, x, y, w) => end(turned(so, a.at_most(x, y, w)), marks),
        Node::Join(all, k, _) => children(rest(ns, 1), left - 1, all, k, a, marks),
    }
}

// The k trees from node 0 on, of at most `left` nodes together, one after another. An end of the elder ones turns them all only if the next
// leaves it to them, as a true one does under an `and` and a false one under an `or`; and so with an end of the next.
#[cycle(children_node)]
fn children(
    ns: &[Node],
    left: usize,
    all: bool,
    k: u32,
    a: Assignment<'_>,
    marks: &mut [Option<bool>],
) -> Seen
    requires { left ≤ length marks.old }
    ensures { TurnsAll (node_at ns.now) left all k (assignment_of a.entry) result.value result.ends marks.new }
{
    let mut younger = ns;
    let mut unspent = left;
    let mut value = all;
    let mut ends = 0;
    for _ in 0..k {
        let s = size_at(younger, 0);
        if unspent < s {
            return Seen { value, ends };
        }
        let (elder, room) = marks.split_at_mut(ends);
        let next = node(younger, s, a, room);
        clear(turned(all, next.value), elder);
        clear(turned(all, value), &mut room[..next.ends]);
        value = both(all, value, next.value);
        ends += next.ends;
        younger = rest(younger, s);
        unspent -= s;
    }
    Seen { value, ends }
}

// Marks each end of the tree that stands from node 0 on, from the first mark on, and counts them: Some(v) if it is v and turns the root,
// None if it doesn't turn it. Without a mark for each node of the tree, nothing is marked,
// and 0 is the number of marks.
pub fn turn(ns: &[Node], a: Assignment<'_>, marks: &mut [Option<bool>]) -> usize
    ensures { Tells (node_at ns.now) (assignment_of a.entry) marks.old result marks.new }
{
    let n = size_at(ns, 0);
    if QUESTION_ROOM.min(marks.len()) < n {
        return 0;
    }
    node(ns, n, a, marks).ends
}
