// A cursor by value over a condition's bytes: its methods read a tag, a count, a name or a bound and return the next cursor.
#![tactic(auto)]

ghost use Rattle.std.specs.Prelude.{◌≡◌, ◌≤◌, ◌<◌, ◌&&◌, ltb, eqb};
ghost use Rattle.condition.specs.Limits.{groups};
ghost use Rattle.condition.specs.Reading.{number_from, up_to, read_tag, read_count, read_name, read_bound};
ghost use Rattle.cursor.specs.Said.{from, said, answer_of, place_of, Small};

use condition::{GROUP_SIZE, GROUPS, LARGEST_BOUND, LAST_TAG, Numeral};

// Why a reading stopped, each with its place: the answers of reading, in the table's order.
#[derive(Clone, Copy)]
pub enum Refusal {
    Ended(usize),
    Form(usize),
    Tag(usize),
    Count(usize),
    Name(usize),
    Bound(usize),
    Crowd(usize),
    After(usize),
}

impl Refusal {
    // Its number in document 01's table, which C and the programs are told. No `From`: a refusal has another number beside it, its place.
    pub fn number(self) -> u32
        ensures { result ≡ answer_of self }
    {
        match self {
            Refusal::Ended(_) => 1,
            Refusal::Form(_) => 2,
            Refusal::Tag(_) => 3,
            Refusal::Count(_) => 4,
            Refusal::Name(_) => 5,
            Refusal::Bound(_) => 6,
            Refusal::Crowd(_) => 7,
            Refusal::After(_) => 8,
        }
    }

    pub fn place(self) -> usize
        ensures { result ≡ place_of self }
    {
        match self {
            Refusal::Ended(at)
            | Refusal::Form(at)
            | Refusal::Tag(at)
            | Refusal::Count(at)
            | Refusal::Name(at)
            | Refusal::Bound(at)
            | Refusal::Crowd(at)
            | Refusal::After(at) => at,
        }
    }
}

// The place alone, document 01's reading position: holding the bytes too, each step would also promise that the next cursor holds the same.
#[derive(Clone, Copy)]
pub struct Cursor {
    pub at: usize,
}

// What a step came to: the number read and the next cursor, or why there is none.
type Step = Result<(Numeral, Cursor), Refusal>;

// A last byte 00 of a longer number.
fn padded(b: Numeral, first: usize, at: usize) -> bool
    ensures { result ≡ (eqb b 0 && ltb first at) }
{
    b == 0 && first < at
}

impl Cursor {
    // The groups from here on of the number that began at first; at most left of them may come.
    #[tactic(auto, using(crate::proofs::Groups::ways))]
    fn group(self, s: &[u8], first: usize, left: u32) -> Step
        requires { left ≤ groups }
        ensures { (said s.now result ≡ number_from left first (from s.now self.at) self.at) × Small left result }
    {
        if left == 0 {
            return Err(Refusal::Form(first));
        }
        let at = self.at;
        if s.len() <= at {
            return Err(Refusal::Ended(at));
        }
        let b = Numeral::from(s[at]);
        let next = Cursor { at: at + 1 };
        if GROUP_SIZE <= b {
            let (n, end) = next.group(s, first, left - 1)?;
            return Ok((b - GROUP_SIZE + GROUP_SIZE * n, end));
        }
        if padded(b, first, at) {
            return Err(Refusal::Form(first));
        }
        Ok((b, next))
    }

    // Most numbers are one byte: without this first step reading takes 1.6 times as long. What group returns is taken apart: passed on
    // whole, the number goes through memory and reading takes twice as long.
    #[tactic(auto, using(crate::proofs::Groups::one_byte))]
    pub fn number(self, s: &[u8]) -> Step
        ensures { said s.now result ≡ number_from groups self.at (from s.now self.at) self.at }
    {
        let at = self.at;
        if at < s.len() {
            let b = Numeral::from(s[at]);
            if b < GROUP_SIZE {
                return Ok((b, Cursor { at: at + 1 }));
            }
        }
        let (n, next) = self.group(s, at, GROUPS)?;
        Ok((n, next))
    }

    // A number of at most most, or the refusal why.
    #[tactic(auto, unfolding(condition::specs::Reading::up_to))]
    fn up_to(self, s: &[u8], most: Numeral, why: Refusal) -> Step
        requires { place_of why ≡ self.at }
        ensures { said s.now result ≡ up_to most (answer_of why) (from s.now self.at) self.at }
    {
        match self.number(s) {
            Ok((n, _)) if most < n => Err(why),
            step => step,
        }
    }

    pub fn tag(self, s: &[u8]) -> Step
        ensures { said s.now result ≡ read_tag (from s.now self.at) self.at }
    {
        self.up_to(s, LAST_TAG, Refusal::Tag(self.at))
    }

    #[tactic(auto, unfolding(condition::specs::Reading::read_count))]
    pub fn count(self, s: &[u8]) -> Step
        ensures { said s.now result ≡ read_count (from s.now self.at) self.at }
    {
        match self.number(s) {
            Ok((k, _)) if k < 2 => Err(Refusal::Count(self.at)),
            step => step,
        }
    }

    pub fn name(self, s: &[u8], last: Numeral) -> Step
        ensures { said s.now result ≡ read_name last (from s.now self.at) self.at }
    {
        self.up_to(s, last, Refusal::Name(self.at))
    }

    pub fn bound(self, s: &[u8]) -> Step
        ensures { said s.now result ≡ read_bound (from s.now self.at) self.at }
    {
        self.up_to(s, 2 * LARGEST_BOUND, Refusal::Bound(self.at))
    }
}
