// Keeps the assignments that searches found, and lets them answer later questions. One walk of the tree under an assignment answers no
// to a question about each end that turns the root there; only a question that no kept assignment answers is searched. Whatever
// assignments are kept, what they tell is right: nothing needs to be known of them.
#![tactic(auto)]

ghost use Rattle.std.specs.Prelude.{◌≡◌, ◌*◌, ◌≤◌, ◌<◌, min, length, false, replicate};
ghost use Rattle.nodes.specs.Memory.{node_at};
ghost use Rattle.keeping.specs.Kept.{kept, questions, Notes, Learns, Replies};

use condition::{ASSIGNED, QUESTION_ROOM};
use judging::Assignment;
use nodes::Node;
use settling::Found;

// Room for so many assignments. Those in all places but the last are kept; the last is taken anew by each one more.
pub const KEPT: usize = 32;

// Two questions about each end, and a tree has no more ends than nodes.
pub const QUESTIONS: usize = 2 * QUESTION_ROOM;

// The first `many` of `found` are kept (an array and a count, since nothing is allocated), and the tree has been walked under the first
// `tried` of these. `known` says which questions about it are known to be answered no, and what `answer` promises speaks of that alone: a
// caller may put in whatever assignments it has.
#[derive(Clone, Copy)]
pub struct Kept {
    pub found: [Found; KEPT],
    pub many: usize,
    pub tried: usize,
    pub known: [bool; QUESTIONS],
    pub ghost few: { many < kept },
    pub ghost walked: { tried ≤ many },
}

// Makes known each question that a mark answers no: question one about an end that is false, question two about one that is true.
fn note(marks: &[Option<bool>], known: &mut [bool; QUESTIONS])
    requires { 2 * length marks.now ≤ questions }
    ensures { Notes marks.now known.old known.new }
{
    for (end, mark) in marks.iter().enumerate() {
        if let Some(met) = mark {
            known[2 * end + usize::from(*met)] = true;
        }
    }
}

// What one assignment tells of the tree that stands from node 0 on.
fn learn(ns: &[Node], found: &Found, known: &mut [bool; QUESTIONS])
    ensures { Learns (node_at ns.now) known.old known.new }
{
    let mut marks = [None; QUESTION_ROOM];
    let assignment = Assignment {
        flags: found.flags,
        numbers: &found.numbers,
    };
    let ends = turning::turn(ns, assignment, &mut marks);
    note(&marks[..ends], known);
}

// Walks the tree under one assignment after another, until question q is known: how many these were.
fn recall(ns: &[Node], q: usize, found: &[Found], known: &mut [bool; QUESTIONS]) -> usize
    requires { q < questions }
    ensures many { result ≤ length found.now }
    ensures right { Learns (node_at ns.now) known.old known.new }
{
    for (k, one) in found.iter().enumerate() {
        if known[q] {
            return k;
        }
        learn(ns, one, known);
    }
    found.len()
}

impl Kept {
    // Before the first question nothing is kept.
    pub fn none() -> Self
        ensures { result.known ≡ replicate questions false }
    {
        Kept {
            found: [Found {
                flags: 0,
                numbers: [0; ASSIGNED],
            }; KEPT],
            many: 0,
            tried: 0,
            known: [false; QUESTIONS],
        }
    }

    // What a caller kept: its assignments up to `many`, the tree walked under the first `tried` of these, if there are so many, and what it
    // knows of the tree.
    pub fn resumed(
        found: [Found; KEPT],
        many: usize,
        tried: usize,
        known: [bool; QUESTIONS],
    ) -> Self
        requires { many < kept }
        ensures { (result.found ≡ found) × (result.many ≡ many) × (result.tried ≡ min tried many) × (result.known ≡ known) }
    {
        let walked = tried.min(many);
        Kept {
            found,
            many,
            tried: walked,
            known,
        }
    }

    // Another tree: nothing is known of it, and it has not been walked under any of the assignments, which stay.
    pub fn another_tree(&mut self)
        ensures { self.new.known ≡ replicate questions false }
    {
        self.tried = 0;
        self.known = [false; QUESTIONS];
    }

    // Whether question q about the tree that stands from node 0 on is answered yes: question one of end q / 2, counted from 0, or if q is odd
    // question two. A question is told by its number in the sweep's order, as the definition `numbered` has it.
    pub fn answer(&mut self, ns: &[Node], q: usize) -> bool
        requires { q < questions }
        ensures { Replies (node_at ns.now) q self.old.known result self.new.known }
    {
        // Taken apart, so that what is known can be changed while an assignment is lent.
        let Kept {
            found,
            many,
            tried,
            known,
        } = self;
        *tried += recall(ns, q, &found[*tried..*many], known);
        if known[q] {
            return false;
        }
        let Some(next) = answering::answer(ns, q / 2, q % 2 == 1) else {
            return true;
        };
        learn(ns, &next, known);
        found[*many] = next;
        *many = (*many + 1).min(KEPT - 1);
        *tried = *many;
        false
    }
}
