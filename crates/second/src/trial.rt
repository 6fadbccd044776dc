// Tries the assignments whose values can matter, and says whether two trees ever differ.
//
// Whether two trees differ depends only on which ends are true together. So the ends are said to be true or false one after the other,
// only those that can still change the outcome, and each time values are sought that make it so: all begin equal, and where an end that
// was said is not met, one value falls as little as meets it. Where no end is left to say, the values found are tried.
//
// That is complete. An end that was said asks that one name is at most another and a step: x at most y + c if it is true, y at most
// x - c - 1 if it is false. Ends that can be met together are met where each name is the least sum of a chain of such steps that
// leads to it; the empty chain's sum is where all begin. A value is always the sum of some chain, so it is never below the least. After
// k rounds it is at most the least sum of a chain of at most k steps. A least chain meets no name twice: the part between would be a
// closed chain, to be left out unless its sum is below 0, and then nothing meets its ends. So where they can be met together, the values
// are at rest by the last of as many rounds as there are names.
//
// Number 0 is a name like the others, since ends ask only for differences. A boolean is true exactly if it is above number 0, and no end
// compares it with another name: where it is neither 0 nor 1 it is still true or false, and that is all that it says.
ghost use Rattle.std.specs.Prelude.{◌≤◌, ◌<◌, IfErr};

use crate::read::{AtMost, MOST_NODES, NAMES, Node, Tree};

// Where all values begin: farther from 0 than 47 steps of 1,000,001, the longest.
const HIGH: u32 = 100000000;

// Room for two trees, each from its place on.
const BOTH: usize = 2 * MOST_NODES;

// The part of the trees from a node on: its value, or the first end that can still change it; and where the next part begins. (That an end is
// a place within both trees is said of a plain number in each contract: it is handed on inside a `Result`, where a type of its own would only
// be taken apart and put together again.)
#[derive(Clone, Copy)]
struct Part {
    value: Result<bool, usize>,
    past: usize,
}

// The nodes of the two trees, and beside them, since it changes with each guess and they do not, what is said of each end.
#[derive(Clone, Copy)]
struct Trial<'a> {
    nodes: &'a [Node; BOTH],
    said: [Option<bool>; BOTH],
}

impl AtMost {
    // The most that x may be.
    fn most(self, values: &[u32; NAMES]) -> i64 {
        i64::from(values[self.y]) + i64::from(self.c)
    }

    fn is_met(self, values: &[u32; NAMES]) -> bool {
        i64::from(values[self.x]) <= self.most(values)
    }

    // Whether it is met; if not, x falls as little as makes it so. Ends that can be met together ask for no fall below 0.
    fn fall(self, values: &mut [u32; NAMES]) -> bool {
        if self.is_met(values) {
            return true;
        }
        if let Ok(most) = u32::try_from(self.most(values)) {
            values[self.x] = most;
        }
        false
    }
}

// The value of two parts joined, of which one alone may be decisive: a false one of an `and`, a true one of an `or`.
fn joined(decisive: bool, u: Result<bool, usize>, v: Result<bool, usize>) -> Result<bool, usize>
    requires { IfErr u (λ end. end < BOTH) × IfErr v (λ end. end < BOTH) }
    ensures { IfErr result (λ end. end < BOTH) }
{
    if u == Ok(decisive) || v == Ok(decisive) {
        return Ok(decisive);
    }
    if u.is_err() { u } else { v }
}

impl<'a> Trial<'a> {
    // The part from node i on. No whole tree asks for one past the room.
    fn part_at(&self, i: usize) -> Part
        requires { i ≤ BOTH }
        ensures { IfErr result.value (λ end. end < BOTH) × (i ≤ result.past) × (result.past ≤ BOTH) }
    {
        if i == BOTH {
            return Part {
                value: Ok(false),
                past: i,
            };
        }
        let nodes = self.nodes;
        let past = i + 1;
        let decisive = match nodes[i] {
            Node::Constant(value) => {
                return Part {
                    value: Ok(value),
                    past,
                };
            }
            Node::End(_) => {
                return Part {
                    value: self.said[i].ok_or(i),
                    past,
                };
            }
            Node::And => false,
            Node::Or => true,
        };
        let first = self.part_at(past);
        let second = self.part_at(first.past);
        Part {
            value: joined(decisive, first.value, second.value),
            past: second.past,
        }
    }

    // Whether one tree is true and the other false, or the first end that can still change that.
    fn outcome(&self) -> Result<bool, usize>
        ensures { IfErr result (λ end. end < BOTH) }
    {
        let first = self.part_at(0).value?;
        let second = self.part_at(MOST_NODES).value?;
        Ok(first != second)
    }

    // Whether the trees differ under these values.
    fn holds(&self, values: &[u32; NAMES]) -> bool {
        let nodes = self.nodes;
        let said = nodes.map(|node| match node {
            Node::End(says) => Some(says.is_met(values)),
            _ => None,
        });
        Trial { nodes, said }.outcome() == Ok(true)
    }

    // Whether each end is as was said, with no fall.
    fn round(&self, values: &mut [u32; NAMES]) -> bool {
        let nodes = self.nodes;
        let mut rest = true;
        for (node, so) in nodes.iter().zip(self.said.iter()) {
            if let (Node::End(says), Some(so)) = (*node, *so) {
                let asked = if so { says } else { says.opposite() };
                rest &= asked.fall(values);
            }
        }
        rest
    }

    // The values at rest, if they come to rest.
    fn settled(&self) -> Option<[u32; NAMES]> {
        let mut values = [HIGH; NAMES];
        for _ in 0..NAMES {
            if self.round(&mut values) {
                return Some(values);
            }
        }
        None
    }

    // With an end said to be true or false.
    fn saying(mut self, end: usize, so: bool) -> Trial<'a>
        requires { end < BOTH }
    {
        self.said[end] = Some(so);
        self
    }

    // Whether under some assignment the trees differ and each end is as was said. No end is said twice, so `left` never runs out; if it
    // did, the answer would show.
    fn some(&self, left: usize) -> bool {
        let Some(values) = self.settled() else {
            return false;
        };
        let Err(end) = self.outcome() else {
            return self.holds(&values);
        };
        if left == 0 {
            return true;
        }
        self.saying(end, true).some(left - 1) || self.saying(end, false).some(left - 1)
    }
}

// Whether some assignment gives the two another value.
pub fn differ(a: &Tree, b: &Tree) -> bool {
    let mut nodes = [Node::Constant(false); BOTH];
    nodes[..MOST_NODES].copy_from_slice(a);
    nodes[MOST_NODES..].copy_from_slice(b);
    let trial = Trial {
        nodes: &nodes,
        said: [None; BOTH],
    };
    trial.some(BOTH)
}

// The tree with node i made true or false. A tree has nothing past its room to be made so.
pub fn made(tree: &Tree, i: usize, so: bool) -> Tree {
    let mut other = *tree;
    if i < MOST_NODES {
        other[i] = Node::Constant(so);
    }
    other
}
