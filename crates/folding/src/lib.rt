// Folds a condition's nodes, with one end cut to a constant or none: a node function calls a children function which calls the node
// function, each with the rest of the nodes, nodes left falling, as in judging. What is folded goes to the rest of the output, which is no shorter than
// what is left to read. Where no tree is laid out the walk still ends.
#![tactic(auto)]

ghost use Rattle.std.specs.Prelude.{◌≡◌, ◌+◌, ◌≤◌, ◌<◌, length};
ghost use Rattle.condition.specs.Limits.{tree_room};
ghost use Rattle.condition.specs.Meaning.{plain};
ghost use Rattle.nodes.specs.Memory.{node_at};
ghost use Rattle.folding.specs.Folded.{Folded};
ghost use Rattle.folding.specs.Parts.{first_cut, past, size_left, KidIs, EndRight, ShutRight, NodeRight, ChildrenRight};

use condition::TREE_ROOM;
use nodes::{Node, node_at, rest, size_at};

// "one child left is that child"
const ONE_LEFT: u32 = 1;

// An end, counted from 0, constants aside, and the constant that replaces it.
#[derive(Clone, Copy)]
pub struct Cut {
    pub end: usize,
    pub to: bool,
}

// A folded tree: which constant it is, if it is one, and its nodes.
#[derive(Clone, Copy)]
struct Kid {
    constant: Option<bool>,
    size: usize,
}

// The children that are left of those folded: how many, and their nodes.
#[derive(Clone, Copy)]
struct Kids {
    count: u32,
    size: usize,
}

// The constant that replaces the next end, if that is the one to cut. The cut is then counted from the end after it.
fn pass(cut: &mut Option<Cut>) -> Option<bool>
    ensures first { result ≡ first_cut cut.old }
    ensures after { cut.new ≡ past 1 cut.old }
{
    let Cut { end, to } = (*cut)?;
    *cut = end.checked_sub(1).map(|end| Cut { end, to });
    if end == 0 { Some(to) } else { None }
}

fn put_constant(b: bool, out: &mut [Node]) -> Kid
    requires { 1 ≤ length out.old }
    ensures { KidIs (node_at out.new) (plain b) result }
{
    out[0] = Node::Plain(b);
    Kid {
        constant: Some(b),
        size: 1,
    }
}

// An end; or the constant in its place.
fn end(n: Node, cut: &mut Option<Cut>, out: &mut [Node]) -> Kid
    requires { 1 ≤ length out.old }
    ensures { EndRight n cut.old cut.new (node_at out.new) result }
{
    if let Some(to) = pass(cut) {
        return put_constant(to, out);
    }
    out[0] = n;
    Kid {
        constant: None,
        size: 1,
    }
}

// A connective whose children that are left stand after node 0, or of which one decides it: a constant, the one child left, or the
// connective of those left.
fn shut(all: bool, kept: Option<Kids>, out: &mut [Node]) -> Kid
    requires { (size_left kept < length out.old) × (size_left kept ≤ tree_room) }
    ensures { ShutRight all kept (node_at out.old) (node_at out.new) result }
{
    let Some(left) = kept else {
        return put_constant(!all, out);
    };
    if left.count == 0 {
        return put_constant(all, out);
    }
    if left.count == ONE_LEFT {
        out.copy_within(1..left.size + 1, 0);
        return Kid {
            constant: None,
            size: left.size,
        };
    }
    out[0] = Node::Join(all, left.count, left.size as u32);
    Kid {
        constant: None,
        size: left.size + 1,
    }
}

// The tree from node 0 on, of at most `left` nodes, folded.
#[cycle(children_node)]
fn node(ns: &[Node], left: usize, cut: &mut Option<Cut>, out: &mut [Node]) -> Kid
    requires { (1 ≤ left) × (left ≤ tree_room) × (left ≤ length out.old) }
    ensures { NodeRight (node_at ns.now) left cut.old cut.new (node_at out.new) result }
{
    match node_at(ns, 0) {
        Node::Plain(b) => put_constant(b, out),
        Node::Join(all, k, _) => {
            let kept = children(rest(ns, 1), left - 1, all, k, cut, &mut out[1..]);
            shut(all, kept, out)
        }
        n => end(n, cut, out),
    }
}

// The k trees from node 0 on, of at most `left` nodes together: those that are left, folded, or None where one decides. A constant is
// written over by the next.
#[cycle(children_node)]
fn children(
    ns: &[Node],
    left: usize,
    all: bool,
    k: u32,
    cut: &mut Option<Cut>,
    out: &mut [Node],
) -> Option<Kids>
    requires { (left ≤ tree_room) × (left ≤ length out.old) }
    ensures { ChildrenRight (node_at ns.now) left all k cut.old cut.new (node_at out.new) result }
{
    let s = size_at(ns, 0);
    if k == 0 || left < s {
        return Some(Kids { count: 0, size: 0 });
    }
    let first = node(ns, s, cut, out);
    let younger = rest(ns, s);
    match first.constant {
        None => {
            let others = children(younger, left - s, all, k - 1, cut, &mut out[first.size..])?;
            Some(Kids {
                count: others.count + 1,
                size: first.size + others.size,
            })
        }
        Some(b) => {
            let others = children(younger, left - s, all, k - 1, cut, out)?;
            if b == all { Some(others) } else { None }
        }
    }
}

// Folds the tree from node 0 on, an end of it first replaced by a constant, if there is a cut: the folded tree's nodes are written from
// node 0 on. How many there are. An output shorter than a tree may be is left as it was, and 0 says so: a folded tree has a node.
pub fn fold(ns: &[Node], mut cut: Option<Cut>, out: &mut [Node]) -> usize
    ensures { Folded (node_at ns.now) cut out.old out.new result }
{
    let n = size_at(ns, 0);
    if TREE_ROOM < n || out.len() < TREE_ROOM {
        return 0;
    }
    node(ns, n, &mut cut, out).size
}
