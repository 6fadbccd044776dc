// Settles whether some assignment makes a condition true, and shows one: first all that needs no guess, then a guess at an `or`.
#![tactic(auto)]

ghost use Rattle.nodes.specs.Memory.{node_at};
ghost use Rattle.settling.specs.Settled.{Finds};

use condition::{ASSIGNED, QUESTION_ROOM, Whole};
use nodes::{Node, size_at};
use settled::{Settled, TRIES};

mod settled;

// An assignment that was found: its boolean bits, and its numbers in the order of their names.
#[derive(Clone, Copy)]
pub struct Found {
    pub flags: u32,
    pub numbers: [Whole; ASSIGNED],
}

// An assignment that makes the tree laid from node 0 true, if there is one. No caller has a tree beyond the room, which is not searched.
pub fn find(ns: &[Node]) -> Option<Found>
    ensures { Finds (node_at ns.now) result }
{
    let n = size_at(ns, 0);
    if QUESTION_ROOM < n {
        return None;
    }
    let mut known = Settled::nothing();
    if !known.settle(ns, 0, n) {
        return None;
    }
    known.guess(ns, TRIES)
}
