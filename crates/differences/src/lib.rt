// The table of tightest differences between all sixteen numbers, 256 in one array by value, as document 01 names them. Entry i * 16 + j
// bounds the difference of numbers i and j and is kept with an offset, so that none is negative. A table starts from the range that holds a
// satisfying assignment if there is one at all, so no entry is infinite.
#![tactic(auto)]

ghost use Rattle.std.specs.Prelude.{◌≡◌, ◌+◌, ◌-◌, ◌*◌, ◌≤◌, ◌<◌, min, pos, ◌-ℤ◌};
ghost use Rattle.condition.specs.Limits.{last_number, largest_bound};
ghost use Rattle.condition.specs.Meaning.{at_most, above};
ghost use Rattle.differences.specs.Table.{numbers, offset, Closed, Starts, Adds, Shown};
ghost use Rattle.differences.specs.Rows.{Ready, Part, lowered, Lowers};

use condition::{FARTHEST, LARGEST_BOUND, LAST_NUMBER, Whole};

// An entry. The largest sum on the way to one is six offsets.
pub type Distance = u32;

const NUMBERS: usize = LAST_NUMBER as usize + 1;

pub const CELLS: usize = NUMBERS * NUMBERS;

const OFFSET: Distance = 2 * FARTHEST;

// The entries, row after row, no two in a row tighter than the one from end to end: a caller may read them, and make a table of its own.
#[derive(Clone, Copy)]
pub struct Table {
    pub entries: [Distance; CELLS],
    pub ghost closed: { Closed entries },
}

// Lowers row i in place to the way round by the new bound, where that is less: `left` is the row's way to y, and row y, which is
// another, goes on from there.
fn lower_row(t: &mut [Distance; CELLS], i: usize, y: usize, left: Distance)
    requires { Lowers t.old i y left }
    ensures { Part (i * numbers) (i * numbers + numbers) (lowered t.old y left) t.old t.new }
{
    for j in 0..NUMBERS {
        let round = left + t[y * NUMBERS + j] - 2 * OFFSET;
        t[i * NUMBERS + j] = t[i * NUMBERS + j].min(round);
    }
}

// Works x - y <= c in, where c is the bound with the offset. If the way from y to x and c sum below 0, the two contradict each other.
// If the entry is as tight already, nothing changes; else only the rows whose way to y is shorter by c do, and row y is none of them.
// Between two rows the entries are not closed, so this and lower_row take the array and not the table.
#[tactic(auto, using(crate::proofs::Lowered::between_upper, crate::proofs::Rows::row_upper))]
fn work_in(t: &mut [Distance; CELLS], x: usize, y: usize, c: Distance) -> bool
    requires { Ready t.old x y × (c ≤ 2 * offset) }
    ensures { Adds t.old (at_most x y (pos c -ℤ pos offset)) result t.new }
{
    if t[y * NUMBERS + x] + c < 2 * OFFSET {
        return false;
    }
    if t[x * NUMBERS + y] <= c {
        return true;
    }
    for i in 0..NUMBERS {
        let left = t[i * NUMBERS + x] + c;
        if left < t[i * NUMBERS + y] + OFFSET {
            lower_row(t, i, y, left);
        }
    }
    true
}

impl Table {
    ghost use Rattle.differences.specs.Distances.{distances};

    // The table that says only that the numbers are in range: two of them lie as far apart as both may from number 0, which is 0.
    pub fn start() -> Table
        ensures { Starts (distances result) }
    {
        let mut t: [Distance; CELLS] = [OFFSET + 2 * FARTHEST; CELLS];
        for i in 0..NUMBERS {
            t[i] = OFFSET + FARTHEST;
            t[i * NUMBERS] = OFFSET + FARTHEST;
            t[i * NUMBERS + i] = OFFSET;
        }
        Table { entries: t }
    }

    // Adds x - y <= c - LARGEST_BOUND in place: a node keeps its bound so. False: nothing meets the table and this, and the table stays.
    pub fn add(&mut self, x: usize, y: usize, c: u32) -> bool
        requires { (x ≤ last_number) × (y ≤ last_number) × (c ≤ 2 * largest_bound) }
        ensures { Adds (distances self.old) (at_most x y (pos c -ℤ pos largest_bound)) result (distances self.new) }
    {
        work_in(&mut self.entries, x, y, OFFSET - LARGEST_BOUND + c)
    }

    // Adds its negation: over whole numbers y - x <= -c - 1.
    pub fn add_above(&mut self, x: usize, y: usize, c: u32) -> bool
        requires { (x ≤ last_number) × (y ≤ last_number) × (c ≤ 2 * largest_bound) }
        ensures { Adds (distances self.old) (above x y (pos c -ℤ pos largest_bound)) result (distances self.new) }
    {
        work_in(&mut self.entries, y, x, OFFSET + LARGEST_BOUND - 1 - c)
    }

    // Number i of the tightest assignment that meets the table.
    pub fn number(&self, i: usize) -> Whole
        requires { i ≤ last_number }
        ensures { Shown (distances self.now) i result }
    {
        let high = self.entries[i * NUMBERS];
        high as Whole - OFFSET as Whole
    }
}
