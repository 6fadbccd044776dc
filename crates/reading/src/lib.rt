// Reads a condition's bytes into nodes: a node function that calls a children function that calls the node function. Document 01 has
// each number step taken apart by `let .. else`, the other case turned into the refusal; so only the parts are passed on by `?`.
#![tactic(auto)]

ghost use Rattle.std.specs.Prelude.{◌≡◌, ◌≤◌, ◌<◌, ◌*◌, length, set};
ghost use Rattle.condition.specs.Limits.{largest_bound, most_ends};
ghost use Rattle.condition.specs.Reading.{bound_of, read as read_of};
ghost use Rattle.nodes.specs.Laid.{shifted};
ghost use Rattle.reading.specs.Parts.{after, May, EndRight, NodeRight, ChildrenRight, Holds};

use condition::{LARGEST_BOUND, LAST_BOOLEAN, LAST_NUMBER, MOST_ENDS, Numeral, TREE_ROOM};
use cursor::{Cursor, Refusal};
use nodes::{Node, put_node};

// The part of the reading that is done: the next free node, the next cursor, and the ends read, with those that are owed beside.
#[derive(Clone, Copy)]
struct Part {
    free: usize,
    cursor: Cursor,
    ends: u32,
}

// A condition in memory, its root at node 0, where it was read. (Not in the `Result`, out of which the room would be copied more often: a tree
// of one node took 1.3 to 1.4 times as long to judge.)
#[derive(Clone, Copy)]
pub struct Held {
    pub nodes: [Node; TREE_ROOM],
    pub answer: Result<(), Refusal>,
}

// c + LARGEST_BOUND, for c as it is written.
#[tactic(auto, using(crate::proofs::Bounds::even, crate::proofs::Bounds::odd))]
fn shift(w: Numeral) -> u32
    requires { w ≤ 2 * largest_bound }
    ensures { shifted result ≡ bound_of w }
{
    if w % 2 == 0 {
        return LARGEST_BOUND + w / 2;
    }
    LARGEST_BOUND - 1 - w / 2
}

// An end, which stands before c, put at the next free node.
fn put_end(ns: &mut [Node], done: Part, end: Node, c: Cursor) -> Part
    requires { (done.free < length ns.old) × (done.ends < most_ends) }
    ensures { (ns.new ≡ set ns.old done.free end) × (result ≡ after done c) }
{
    put_node(ns, done.free, end);
    Part {
        free: done.free + 1,
        cursor: c,
        ends: done.ends + 1,
    }
}

// An end of a boolean, its tag g read.
#[tactic(auto, using(crate::proofs::Ways::stops))]
fn boolean(s: &[u8], done: Part, g: Numeral, ns: &mut [Node]) -> Result<Part, Refusal>
    requires { May 1 s.now done (length ns.old) × (g < 6) }
    ensures { EndRight ns.old ns.new s.now g done result }
{
    let name = done.cursor.name(s, LAST_BOOLEAN);
    let Ok((p, c)) = name else {
        return Err(name.unwrap_err());
    };
    Ok(put_end(ns, done, Node::Flag(g == 4, p), c))
}

// An end of two numbers, its tag g read.
#[tactic(auto, using(crate::proofs::Ways::stops))]
fn difference(s: &[u8], done: Part, g: Numeral, ns: &mut [Node]) -> Result<Part, Refusal>
    requires { May 1 s.now done (length ns.old) × (6 ≤ g) }
    ensures { EndRight ns.old ns.new s.now g done result }
{
    let first = done.cursor.name(s, LAST_NUMBER);
    let Ok((x, c1)) = first else {
        return Err(first.unwrap_err());
    };
    let second = c1.name(s, LAST_NUMBER);
    let Ok((y, c2)) = second else {
        return Err(second.unwrap_err());
    };
    let bound = c2.bound(s);
    let Ok((w, c3)) = bound else {
        return Err(bound.unwrap_err());
    };
    Ok(put_end(ns, done, Node::Bound(g == 6, x, y, shift(w)), c3))
}

// One node and all below it. Tags stay document 01's numbers, since they become an enum here, once: the node.
#[cycle(children_node)]
#[tactic(auto, using(cursor::proofs::Steps::up_to_taken, cursor::proofs::Steps::count_taken))]
fn node(s: &[u8], done: Part, ns: &mut [Node]) -> Result<Part, Refusal>
    requires { May 1 s.now done (length ns.old) }
    ensures { NodeRight ns.old ns.new s.now done result }
{
    let tag = done.cursor.tag(s);
    let Ok((g, c1)) = tag else {
        return Err(tag.unwrap_err());
    };
    match g {
        0 | 1 => Ok(put_end(ns, done, Node::Plain(g == 1), c1)),
        2 | 3 => {
            let count = c1.count(s);
            let Ok((k, c2)) = count else {
                return Err(count.unwrap_err());
            };
            if MOST_ENDS - done.ends < k {
                return Err(Refusal::Crowd(done.cursor.at));
            }
            let below = Part {
                free: done.free + 1,
                cursor: c2,
                ..done
            };
            let kids = children(s, below, k, ns)?;
            let size = (kids.free - below.free) as u32;
            put_node(ns, done.free, Node::Join(g == 2, k, size));
            Ok(kids)
        }
        4 | 5 => boolean(s, Part { cursor: c1, ..done }, g, ns),
        _ => difference(s, Part { cursor: c1, ..done }, g, ns),
    }
}

// k nodes one after the other: while one is read, its younger siblings are owed. (Where `done` itself is changed in place, its number of
// ends goes through memory, and reading takes 1.5 times as long.)
#[cycle(children_node)]
fn children(s: &[u8], mut done: Part, k: u32, ns: &mut [Node]) -> Result<Part, Refusal>
    requires { May k s.now done (length ns.old) }
    ensures { ChildrenRight ns.old ns.new s.now k done result }
{
    for owed in (0..k).rev() {
        let beside = Part {
            ends: done.ends + owed,
            ..done
        };
        let child = node(s, beside, ns)?;
        done = Part {
            ends: child.ends - owed,
            ..child
        };
    }
    Ok(done)
}

// The whole input into the room that is lent, the root to node 0.
fn whole(s: &[u8], ns: &mut [Node; TREE_ROOM]) -> Result<(), Refusal>
    ensures { Holds ns.new result (read_of s.now) }
{
    let start = Part {
        free: 0,
        cursor: Cursor { at: 0 },
        ends: 0,
    };
    let whole = node(s, start, ns)?;
    let at = whole.cursor.at;
    if at < s.len() {
        return Err(Refusal::After(at));
    }
    Ok(())
}

// The whole input.
pub fn read(s: &[u8]) -> Held
    ensures { Holds result.nodes result.answer (read_of s.now) }
{
    let mut held = Held {
        nodes: [Node::Plain(false); TREE_ROOM],
        answer: Ok(()),
    };
    held.answer = whole(s, &mut held.nodes);
    held
}
