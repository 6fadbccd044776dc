// Reads a condition's bytes from their hex digits, in a form of its own. An `and` of k children stands as k - 1 of two, one after the
// other. Every end says x <= y + c of two names: the booleans are named after the numbers, and are 0 or 1.
ghost use Rattle.std.specs.Prelude.{◌+◌, ◌≤◌, ◌<◌, nat_abs, IfSome};
ghost use Rattle.second.specs.declared.read.TheConstants.{NAMES};

use crate::text::cut;

// Numbers 0 to 15, then booleans 0 to 31.
const NUMBERS: usize = 16;

const BOOLEANS: usize = 32;

pub const NAMES: usize = NUMBERS + BOOLEANS;

const MOST_ENDS: usize = 24;

// 24 ends and the 23 joins of two between them.
pub const MOST_NODES: usize = 2 * MOST_ENDS - 1;

const HIGHEST_BOUND: usize = 2000000;

// Of two names: x <= y + c.
#[derive(Clone, Copy)]
pub struct AtMost {
    pub x: usize,
    pub y: usize,
    pub c: i32,
    ghost named: { (x < NAMES) × (y < NAMES) },
}

// A constant, another end, or a join of the two nodes after it.
#[derive(Clone, Copy)]
pub enum Node {
    Constant(bool),
    End(AtMost),
    And,
    Or,
}

// The nodes in prefix order. What stands after the tree's last node says nothing.
pub type Tree = [Node; MOST_NODES];

impl AtMost {
    // Over whole numbers x <= y + c is false exactly if y <= x - c - 1.
    pub fn opposite(self) -> AtMost {
        AtMost {
            x: self.y,
            y: self.x,
            c: !self.c,
        }
    }
}

// `to_digit` would take capitals too, which the library's program never prints.
fn digit(c: u8) -> Option<u8>
    ensures { IfSome result (λ d. d < 16) }
{
    match c {
        b'0'..=b'9' => Some(c - b'0'),
        b'a'..=b'f' => Some(c - b'a' + 10),
        _ => None,
    }
}

// A condition's bytes, of which the rest is still to be read. What is read is None where it is not understood.
#[derive(Clone, Copy)]
struct Bytes<'a> {
    rest: &'a [u8],
}

impl Bytes<'_> {
    // The two digits that begin the next word.
    fn byte(&mut self) -> Option<u8> {
        let (word, rest) = cut(self.rest, b' ');
        self.rest = rest;
        let [high, low, ..] = word else {
            return None;
        };
        Some(16 * digit(*high)? + digit(*low)?)
    }

    // Groups of seven bits, low group first, top bit set on every byte but the last. A third byte with its top bit makes the value too high.
    fn number(&mut self) -> Option<usize> {
        let low = usize::from(self.byte()?);
        if low < 128 {
            return Some(low);
        }
        let middle = usize::from(self.byte()?);
        if middle < 128 {
            return Some(low - 128 + 128 * middle);
        }
        let high = usize::from(self.byte()?);
        Some(low - 128 + 128 * (middle - 128) + 16384 * high)
    }

    fn below(&mut self, limit: usize) -> Option<usize>
        ensures { IfSome result (λ n. n < limit) }
    {
        self.number().filter(|n| *n < limit)
    }

    // From a connective's child count k: k - 1 joins of two.
    fn joins(&mut self) -> Option<usize>
        ensures { IfSome result (λ times. (1 ≤ times) × (times < MOST_ENDS)) }
    {
        match self.number()? {
            k @ 2..=MOST_ENDS => Some(k - 1),
            _ => None,
        }
    }

    // 1 <= p.
    fn boolean(&mut self) -> Option<AtMost>
        ensures { IfSome result (λ end. nat_abs end.c ≤ 1000000) }
    {
        let p = self.below(BOOLEANS)?;
        Some(AtMost {
            x: 0,
            y: NUMBERS + p,
            c: -1,
        })
    }

    // c is written as 2c, or as -2c - 1 if it is below 0.
    fn difference(&mut self) -> Option<AtMost>
        ensures { IfSome result (λ end. nat_abs end.c ≤ 1000000) }
    {
        let x = self.below(NUMBERS)?;
        let y = self.below(NUMBERS)?;
        let written = self.below(HIGHEST_BOUND + 1)?;
        let half = (written / 2) as i32;
        let c = if written % 2 == 0 { half } else { !half };
        Some(AtMost { x, y, c })
    }

    // A node, and how many times it stands, one after the other.
    fn node(&mut self) -> Option<(Node, usize)>
        ensures { IfSome result (λ r. (1 ≤ r.1) × (r.1 < MOST_ENDS)) }
    {
        match self.number()? {
            0 => Some((Node::Constant(false), 1)),
            1 => Some((Node::Constant(true), 1)),
            2 => Some((Node::And, self.joins()?)),
            3 => Some((Node::Or, self.joins()?)),
            4 => Some((Node::End(self.boolean()?), 1)),
            5 => Some((Node::End(self.boolean()?.opposite()), 1)),
            6 => Some((Node::End(self.difference()?), 1)),
            7 => Some((Node::End(self.difference()?.opposite()), 1)),
            _ => None,
        }
    }
}

// A tree of more ends than there may be finds no room. (No `for`: a tree ends where no end is owed.)
pub fn read_tree(text: &[u8]) -> Option<Tree> {
    let mut bytes = Bytes { rest: text };
    let mut tree = [Node::Constant(false); MOST_NODES];
    let mut size = 0;
    let mut owed = 1;
    while 0 < owed {
        let (node, times) = bytes.node()?;
        tree.get_mut(size..size + times)?.fill(node);
        size += times;
        owed = match node {
            Node::And | Node::Or => owed + times,
            Node::Constant(_) | Node::End(_) => owed - 1,
        };
    }
    if bytes.rest.is_empty() {
        Some(tree)
    } else {
        None
    }
}
