// What is settled, and the `or`s that wait. A guess works on a copy, which is dropped when the guess is withdrawn.
ghost use Rattle.std.specs.Prelude.{◌≤◌};
ghost use Rattle.condition.specs.Limits.{question_room};

use crate::Found;
use condition::{
    ASSIGNED, BOOLEANS, LARGEST_BOUND, LAST_BOOLEAN, LAST_NUMBER, QUESTION_ROOM, Whole,
};
use differences::Table;
use nodes::{Node, count_at, node_at, size_at};

// A guess takes so many tries, and the search of a tree no more than that for each node of the room, and one.
const GUESS: usize = 3;

pub const TRIES: usize = GUESS * QUESTION_ROOM + 1;

#[derive(Clone, Copy)]
pub struct Settled {
    table: Table,
    // which way each boolean is settled
    flags: [Option<bool>; BOOLEANS],
    // where the `or`s that wait stand: a stack, which is an array and a count since nothing is allocated
    ors: [u8; QUESTION_ROOM],
    many: usize,
    ghost few: { many ≤ question_room },
}

impl Settled {
    ghost use Rattle.std.specs.Prelude.{◌≡◌, ◌<◌};
    ghost use Rattle.nodes.specs.Memory.{node_at};
    ghost use Rattle.nodes.specs.Laid.{flag_end, bound_end};
    ghost use Rattle.differences.specs.Distances.{distances};
    ghost use Rattle.settling.specs.Settled.{Clear, Fixes, Stacks, Takes, Settles, Bits, Shows, Guesses, Attempts};

    // Nothing settled but that the numbers are in range.
    pub fn nothing() -> Settled
        ensures { Clear result }
    {
        Settled {
            table: Table::start(),
            flags: [None; BOOLEANS],
            ors: [0; QUESTION_ROOM],
            many: 0,
        }
    }

    // Settles boolean p, unless it is settled the other way.
    fn mark(&mut self, so: bool, p: u32) -> bool
        ensures { Fixes self.old (flag_end so p) result self.new }
    {
        if LAST_BOOLEAN < p {
            return false;
        }
        if let Some(settled) = self.flags[p as usize] {
            return settled == so;
        }
        self.flags[p as usize] = Some(so);
        true
    }

    // Settles x - y <= w - LARGEST_BOUND, or (false) its negation.
    fn bound(&mut self, so: bool, x: u32, y: u32, w: u32) -> bool
        ensures { Fixes self.old (bound_end so x y w) result self.new }
    {
        if LAST_NUMBER < x || LAST_NUMBER < y || 2 * LARGEST_BOUND < w {
            return false;
        }
        if so {
            self.table.add(x as usize, y as usize, w)
        } else {
            self.table.add_above(x as usize, y as usize, w)
        }
    }

    // Lets the `or` at node i wait, if there is room.
    fn wait(&mut self, i: usize) -> bool
        requires { i < question_room }
        ensures { Stacks self.old i result self.new }
    {
        if self.many == QUESTION_ROOM {
            return false;
        }
        self.ors[self.many] = i as u8;
        self.many += 1;
        true
    }

    // Settles the node at i, if it needs no guess: an `and` is its children, which follow; an `or` waits. Some: the node to go on at.
    fn take(&mut self, ns: &[Node], i: usize) -> Option<usize>
        requires { i < question_room }
        ensures { Takes (node_at ns.now) i self.old result self.new }
    {
        match node_at(ns, i) {
            Node::Plain(b) => b.then_some(i + 1),
            Node::Flag(so, p) => self.mark(so, p).then_some(i + 1),
            Node::Bound(so, x, y, w) => self.bound(so, x, y, w).then_some(i + 1),
            Node::Join(true, _, _) => Some(i + 1),
            Node::Join(false, _, below) => self.wait(i).then_some(i + 1 + below as usize),
        }
    }

    // Settles the nodes from `from` up to `to`, all of which must hold. False: nothing meets them and what was settled.
    pub fn settle(&mut self, ns: &[Node], from: usize, to: usize) -> bool
        requires { to ≤ question_room }
        ensures { Settles (node_at ns.now) from to self.old result self.new }
    {
        // a `while`, since an `or` is passed over in one step
        let mut i = from;
        while i < to {
            let Some(next) = self.take(ns, i) else {
                return false;
            };
            i = next;
        }
        true
    }

    // The boolean bits: boolean p is the bit of weight 2^p, and one that is not settled is false.
    fn bits(&self) -> u32
        ensures { Bits self.now.flags result }
    {
        let mut r: u32 = 0;
        for p in (0..BOOLEANS).rev() {
            r = 2 * r + u32::from(self.flags[p].unwrap_or(false));
        }
        r
    }

    // The numbers that the table has, in the order of their names.
    fn numbers(&self) -> [Whole; ASSIGNED]
        ensures { Shows (distances self.now.table) result }
    {
        let mut numbers = [0; ASSIGNED];
        for (i, number) in numbers.iter_mut().enumerate() {
            *number = self.table.number(i + 1);
        }
        numbers
    }

    // One child of each `or` that waits made true. What is left of the tries falls by three with each guess and by one with each child that
    // is passed over, and never runs out where a tree is laid out, which does not go beyond the room.
    #[cycle(attempt_guess)]
    pub fn guess(&self, ns: &[Node], left: usize) -> Option<Found>
        ensures { Guesses (node_at ns.now) self.now left result }
    {
        if self.many == 0 {
            return Some(Found {
                flags: self.bits(),
                numbers: self.numbers(),
            });
        }
        let top = usize::from(self.ors[self.many - 1]);
        let mut from = top + 1;
        let mut spare = left;
        for _ in 0..count_at(ns, top) {
            let to = from + size_at(ns, from);
            if QUESTION_ROOM < to {
                return None;
            }
            if spare < GUESS {
                return None;
            }
            if let Some(found) = self.attempt(ns, from, to, spare - GUESS) {
                return Some(found);
            }
            from = to;
            spare -= 1;
        }
        None
    }

    // The nodes from `from` up to `to`, a child of the `or` on top, made true, and one child of each other `or` that waits. What is
    // settled is copied before the guess, and the copy dropped when the guess is withdrawn.
    #[cycle(attempt_guess)]
    fn attempt(&self, ns: &[Node], from: usize, to: usize, left: usize) -> Option<Found>
        requires some { 0 < self.now.many }
        requires near { to ≤ question_room }
        ensures { Attempts (node_at ns.now) from to self.now left result }
    {
        let mut known = *self;
        known.many -= 1;
        if !known.settle(ns, from, to) {
            return None;
        }
        known.guess(ns, left)
    }
}
