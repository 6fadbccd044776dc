// Writes the question about an end: its critical constraint and the end or its opposite, as one `and`. The constraint is gathered by
// recursion down the path to the end, and a sibling below an `or` is negated by recursion down its own paths; what falls is how many
// connectives may still nest. A part is handed on as the rest of the nodes, and as much of the output as it has nodes.
#![tactic(auto)]

ghost use Rattle.std.specs.Prelude.{◌≡◌, ℕ, ◌+◌, ◌≤◌, ◌<◌, length};
ghost use Rattle.nodes.specs.Memory.{node_at};
ghost use Rattle.asking.specs.Asked.{turned, is_end, ends_from, Negates, NegatesAll, Stars, Seeks, Siblings, MayGather, Asks, Lives};

use condition::{DEEPEST, QUESTION_ROOM};
use nodes::{Node, node_at, put_node, rest, size_at};

// Of trees that stand one after the other, the one that has the end asked about: it stands after `at` nodes, in `size` nodes, and `end` is
// that end among its own, counted from 0.
#[derive(Clone, Copy)]
struct Place {
    at: usize,
    size: usize,
    end: usize,
}

// What was written: its nodes, and how many trees they are.
#[derive(Clone, Copy)]
struct Wrote {
    size: usize,
    trees: usize,
}

// The first nodes, as many as the output has: past the end each is plain false, so no `copy_from_slice`.
fn copy(ns: &[Node], out: &mut [Node])
    ensures { (x : ℕ) → x < length out.old → node_at out.new x ≡ node_at ns.now x }
{
    for (k, o) in out.iter_mut().enumerate() {
        *o = node_at(ns, k);
    }
}

// The negation of the tree in the first nodes, as many as the output has.
#[cycle(negate_negate_all)]
fn negate(ns: &[Node], depth: u32, out: &mut [Node])
    requires { 1 ≤ length out.old }
    ensures { Negates (node_at ns.now) (length out.old) depth (node_at out.new) }
{
    out[0] = node_at(ns, 0).opposed();
    if 0 < depth {
        negate_all(rest(ns, 1), depth - 1, &mut out[1..]);
    }
}

// The negations of the trees in the first nodes, as many as the output has.
#[cycle(negate_negate_all)]
fn negate_all(ns: &[Node], depth: u32, out: &mut [Node])
    ensures { NegatesAll (node_at ns.now) (length out.old) depth (node_at out.new) }
{
    let mut k = 0;
    // no `for`: a step is as long as a tree
    while k < out.len() {
        let s = size_at(ns, k);
        if out.len() - k < s {
            return;
        }
        negate(rest(ns, k), depth, &mut out[k..k + s]);
        k += s;
    }
}

// The trees in the first nodes, as many as the output has, as a sibling of theirs has them in its constraint: as they are below an `and`,
// negated below an `or`.
fn star(ns: &[Node], all: bool, depth: u32, out: &mut [Node])
    ensures { Stars (node_at ns.now) (length out.old) all depth (node_at out.new) }
{
    if all {
        copy(ns, out);
    } else {
        negate_all(ns, depth, out);
    }
}

fn is_end(n: Node) -> bool
    ensures { result ≡ is_end n }
{
    matches!(n, Node::Flag(_, _) | Node::Bound(_, _, _, _))
}

// How many ends the first n nodes have. (`filter` and `count` over the places: tried, the proof did not close.)
fn ends(ns: &[Node], n: usize) -> usize
    ensures { result ≡ ends_from (node_at ns.now) 0 n }
{
    let mut e = 0;
    for k in 0..n {
        e += usize::from(is_end(node_at(ns, k)));
    }
    e
}

// Of the trees in the first n nodes, the one that has their end m.
fn seek(ns: &[Node], n: usize, m: usize) -> Option<Place>
    ensures { Seeks (node_at ns.now) n m result }
{
    let mut at = 0;
    let mut end = m;
    // no `for`: a step is as long as a tree
    while at < n {
        let s = size_at(ns, at);
        if n - at < s {
            return None;
        }
        let e = ends(rest(ns, at), s);
        if end < e {
            return Some(Place { at, size: s, end });
        }
        at += s;
        end -= e;
    }
    None
}

// The siblings of the tree c, starred: the elder, then the younger, in all as many nodes as the output has.
fn siblings(ns: &[Node], c: Place, all: bool, depth: u32, out: &mut [Node])
    requires { c.at ≤ length out.old }
    ensures { Siblings (node_at ns.now) c (length out.old) all depth (node_at out.new) }
{
    let younger = rest(rest(ns, c.at), c.size);
    star(ns, all, depth, &mut out[..c.at]);
    star(younger, all, depth, &mut out[c.at..]);
}

// A node, or (true) the same node of the negation.
fn turn(n: Node, opposite: bool) -> Node
    ensures { result ≡ turned opposite n }
{
    if opposite { n.opposed() } else { n }
}

// What the question asks of the tree in the first nodes, as many as the output has, and of its end: of a connective the siblings of the
// child that has the end, then what it asks of that child. None where there is no such end.
fn gather(ns: &[Node], end: usize, depth: u32, opposite: bool, out: &mut [Node]) -> Option<Wrote>
    requires { 1 ≤ length out.old }
    ensures { MayGather (node_at ns.now) (length out.old) end depth opposite (node_at out.new) result }
{
    match node_at(ns, 0) {
        Node::Plain(_) => None,
        Node::Join(all, k, _) => {
            let below = rest(ns, 1);
            let c = seek(below, out.len() - 1, end)?;
            let others = out.len() - 1 - c.size;
            let trees = k.checked_sub(1)? as usize;
            let deep = depth.checked_sub(1)?;
            if others < trees {
                return None;
            }
            siblings(below, c, all, deep, &mut out[..others]);
            let r = gather(
                rest(below, c.at),
                c.end,
                deep,
                opposite,
                &mut out[others..others + c.size],
            )?;
            Some(Wrote {
                size: others + r.size,
                trees: trees + r.trees,
            })
        }
        n => {
            out[0] = turn(n, opposite);
            Some(Wrote { size: 1, trees: 1 })
        }
    }
}

// The question about end m, counted from 0, of the tree from node 0 on, or (true) about its opposite: its nodes are counted.
// Without room for one node more than the tree's, nothing is written, and 0 says so: a question has a node, so a `None` would say no more.
pub fn ask(ns: &[Node], m: usize, opposite: bool, out: &mut [Node]) -> usize
    ensures { Asks (node_at ns.now) m opposite out.old result out.new }
{
    let n = size_at(ns, 0);
    if QUESTION_ROOM <= n || out.len() <= n {
        return 0;
    }
    let Some(r) = gather(ns, m, DEEPEST, opposite, &mut out[1..n + 1]) else {
        return 0;
    };
    put_node(out, 0, Node::Join(true, r.trees as u32, r.size as u32));
    r.size + 1
}

// How many ends the tree from node 0 on has, constants aside. No caller has a tree beyond the room, for which 0 is within the bound.
pub fn live(ns: &[Node]) -> usize
    ensures { Lives (node_at ns.now) result }
{
    let n = size_at(ns, 0);
    if QUESTION_ROOM < n {
        return 0;
    }
    ends(ns, n)
}
