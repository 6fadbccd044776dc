// Writes a condition's nodes as bytes: "each child into the room after its elder sibling". A node function writes a node's own bytes and
// hands on the rest of the nodes, and lends the rest of the output, to a children function, which calls the node function, as in judging;
// nodes left fall. Where no tree is laid out the bytes mean nothing, and the walk still ends within the output.
#![tactic(auto)]

ghost use Rattle.std.specs.Prelude.{◌≡◌, cond, ◌+◌, ◌*◌, ◌≤◌, length};
ghost use Rattle.std.specs.List.{flat_map};
ghost use Rattle.condition.specs.Limits.{last_tag, groups};
ghost use Rattle.condition.specs.Bytes.{groups_of, number, written};
ghost use Rattle.nodes.specs.Memory.{node_at};
ghost use Rattle.nodes.specs.Laid.{shifted};
ghost use Rattle.writing.specs.Written.{own, Put, PutTree, PutAll, Needed, Written};

use condition::{GROUP_SIZE, GROUPS, LARGEST_BOUND, TREE_ROOM};
use nodes::{Node, count_at, node_at, rest, size_at};

const SIZE: u64 = GROUP_SIZE as u64;

// The most bytes of a node without its children: four numbers.
const OWN: usize = 4 * GROUPS as usize;

// A number in at most `groups` groups of seven bits, the shortest form.
fn put(out: &mut [u8], groups: u32, n: u64) -> usize
    ensures { Put out.old out.new (groups_of groups n) result }
{
    if groups == 0 {
        return 0;
    }
    let Some((first, others)) = out.split_first_mut() else {
        return 0;
    };
    if n < SIZE {
        *first = n as u8;
        return 1;
    }
    *first = (SIZE + n % SIZE) as u8;
    1 + put(others, groups - 1, n / SIZE)
}

// Numbers, each after the one before it.
fn put_each(out: &mut [u8], numbers: &[u64]) -> usize
    ensures { Put out.old out.new (flat_map number numbers.now) result }
{
    let mut at = 0;
    for n in numbers {
        at += put(&mut out[at..], GROUPS, *n);
    }
    at
}

// A tag, or for a negated node the next.
fn tag(first: u64, so: bool) -> u64
    requires { first ≤ last_tag }
    ensures { result ≡ cond so first (first + 1) }
{
    first + u64::from(!so)
}

// A bound c as it is written, of c + LARGEST_BOUND.
fn bound(w: u32) -> u64
    ensures { result ≡ written (shifted w) }
{
    if w < LARGEST_BOUND {
        return 2 * u64::from(LARGEST_BOUND - 1 - w) + 1;
    }
    2 * u64::from(w - LARGEST_BOUND)
}

// A node without its children: tags as document 01's table has them.
fn put_own(out: &mut [u8], node: Node) -> usize
    ensures { Put out.old out.new (own node) result }
{
    match node {
        Node::Plain(b) => put_each(out, &[u64::from(b)]),
        Node::Join(all, k, _) => put_each(out, &[tag(2, all), u64::from(k)]),
        Node::Flag(so, p) => put_each(out, &[tag(4, so), u64::from(p)]),
        Node::Bound(so, x, y, w) => put_each(
            out,
            &[tag(6, so), u64::from(x), u64::from(y), bound(w)],
        ),
    }
}

// The tree from node 0 on, of at most `left` nodes.
#[cycle(children_node)]
fn node(ns: &[Node], left: usize, out: &mut [u8]) -> usize
    ensures { PutTree (node_at ns.now) left out.old out.new result }
{
    if left == 0 {
        return 0;
    }
    let a = put_own(out, node_at(ns, 0));
    let b = children(rest(ns, 1), left - 1, count_at(ns, 0), &mut out[a..]);
    a + b
}

// The k trees from node 0 on, of at most `left` nodes together.
#[cycle(children_node)]
fn children(ns: &[Node], left: usize, k: u32, out: &mut [u8]) -> usize
    ensures { PutAll (node_at ns.now) left k out.old out.new result }
{
    if k == 0 {
        return 0;
    }
    let s = size_at(ns, 0);
    if left < s {
        return 0;
    }
    let a = node(ns, s, out);
    let b = children(rest(ns, s), left - s, k - 1, &mut out[a..]);
    a + b
}

// How many bytes a node takes without its children: so many as are written to a room that holds any, since a count of its
// own would say a node's numbers a second time.
fn own_length(node: Node) -> usize
    ensures { (result ≡ length (own node)) × (result ≤ 4 * groups) }
{
    let mut room = [0u8; OWN];
    put_own(&mut room, node)
}

// How many bytes the tree that stands from node 0 on takes.
pub fn needed(ns: &[Node]) -> usize
    ensures { Needed (node_at ns.now) result }
{
    let mut sum = 0;
    for i in 0..size_at(ns, 0).min(TREE_ROOM) {
        sum += own_length(node_at(ns, i));
    }
    sum
}

// Writes the tree that stands from node 0 on from the output's start, if it fits; bytes beyond it stay. Returns how many bytes it takes.
pub fn write(ns: &[Node], out: &mut [u8]) -> usize
    ensures { Written (node_at ns.now) out.old out.new result }
{
    let all = needed(ns);
    if out.len() < all {
        return all;
    }
    node(ns, TREE_ROOM, out)
}
