// Reads a typed line from left to right.
ghost use Rattle.std.specs.Prelude.{◌≡◌, ◌≢◌, ◌↔◌, ◌+◌, ◌≤◌, ◌<◌, [], ◌++◌, length, IfOk, IfErr, IsOk, All, Some, codes, slice_index_or};
ghost use Rattle.std.specs.Fmt.{decimal};
ghost use Rattle.condition.specs.Limits.{last_number};

use condition::{ASSIGNED, LARGEST_WHOLE, Whole};
use std::fmt;

pub const MOST_BYTES: usize = 256;

// One number more than an assignment has, so that a line can show what judge answers to too many.
pub const MOST_NUMBERS: usize = ASSIGNED + 1;

// The place, from 0, of the first character that cannot be continued.
#[derive(Clone, Copy, Debug)]
pub struct Stuck {
    pub at: usize,
}

impl fmt::Display for Stuck {
    ghost output = { λ stuck. Some (codes "not understood at " ++ decimal stuck.at) };

    fn fmt<W: fmt::Write>(&self, f: &mut fmt::Formatter<W>) -> fmt::Result {
        write!(f, "not understood at {}", self.at)
    }
}

// A line of so many characters, of which the rest is still to be read.
#[derive(Clone, Copy)]
pub struct Line<'a> {
    pub size: usize,
    pub rest: &'a [u8],
    ghost within: { length rest.now ≤ size },
}

impl<'a> Line<'a> {
    // A line's first word, up to its first space, and the line after it.
    pub fn first_word(line: &'a [u8]) -> (&'a [u8], Line<'a>)
        ensures parts { result.0.now ++ result.1.rest.now ≡ line.now }
        ensures spaceless { All (λ c. c ≢ 32) result.0.now }
        ensures space { slice_index_or result.1.rest.now 0 32 ≡ 32 }
        ensures place { result.1.size ≡ length line.now }
    {
        let size = line.len();
        match line.iter().position(|c| *c == b' ') {
            Some(end) => (
                &line[..end],
                Line {
                    size,
                    rest: &line[end..],
                },
            ),
            None => (line, Line { size, rest: &[] }),
        }
    }

    fn stuck(&self) -> Stuck
        ensures { result.at + length self.now.rest.now ≡ self.now.size }
    {
        Stuck {
            at: self.size - self.rest.len(),
        }
    }

    fn skip_spaces(&mut self) {
        while let [b' ', rest @ ..] = self.rest {
            self.rest = rest;
        }
    }

    // Reads this character.
    fn take(&mut self, c: u8) -> Result<(), Stuck> {
        match self.rest {
            [first, rest @ ..] if *first == c => {
                self.rest = rest;
                Ok(())
            }
            _ => Err(self.stuck()),
        }
    }

    // Where a part ends, the line ends or a `/` stands.
    fn is_at_part_end(&self) -> bool {
        matches!(self.rest, [] | [b'/', ..])
    }

    // Nothing is left of the line.
    pub fn end(&self) -> Result<(), Stuck>
        ensures ended { IsOk result ↔ (self.now.rest.now ≡ []) }
        ensures place { IfErr result (λ stuck. stuck.at + length self.now.rest.now ≡ self.now.size) }
    {
        match self.rest {
            [] => Ok(()),
            _ => Err(self.stuck()),
        }
    }

    fn hex_digit(&mut self) -> Result<u8, Stuck>
        ensures { IfOk result (λ d. d < 16) }
    {
        let [c, rest @ ..] = self.rest else {
            return Err(self.stuck());
        };
        let digit = char::from(*c).to_digit(16).ok_or(self.stuck())?;
        self.rest = rest;
        Ok(digit as u8)
    }

    // The condition's bytes, up to the part's end. More than there is room for are not understood. (Beyond the last byte there is one turn more,
    // in which the part must end; so it goes over counts, and not over the room.)
    pub fn tree<'t>(&mut self, room: &'t mut [u8]) -> Result<&'t [u8], Stuck>
        ensures { IfOk result (λ bytes. length bytes.now ≤ length room.old) }
    {
        for count in 0..=room.len() {
            self.skip_spaces();
            if self.is_at_part_end() {
                return Ok(&room[..count]);
            }
            if count == room.len() {
                break;
            }
            room[count] = 16 * self.hex_digit()? + self.hex_digit()?;
        }
        Err(self.stuck())
    }

    // A decimal of at most `most`; the digit that takes it above is not understood, and `parse` would not say which it is.
    fn decimal(&mut self, most: u32) -> Result<u32, Stuck>
        ensures { IfOk result (λ n. n ≤ most) }
    {
        if !matches!(self.rest, [b'0'..=b'9', ..]) {
            return Err(self.stuck());
        }
        let mut value = 0;
        while let [c @ b'0'..=b'9', rest @ ..] = self.rest {
            let longer = 10 * u64::from(value) + u64::from(*c - b'0');
            if u64::from(most) < longer {
                return Err(self.stuck());
            }
            value = longer as u32;
            self.rest = rest;
        }
        Ok(value)
    }

    // A decimal of at most `most`, from where the part before it ends; 0 at the line's end.
    pub fn part(&mut self, most: u32) -> Result<u32, Stuck>
        ensures { IfOk result (λ n. n ≤ most) }
    {
        if self.rest.is_empty() {
            return Ok(0);
        }
        self.take(b'/')?;
        self.skip_spaces();
        let value = self.decimal(most)?;
        self.skip_spaces();
        if self.is_at_part_end() {
            Ok(value)
        } else {
            Err(self.stuck())
        }
    }

    // A signed decimal that is a whole number of an assignment.
    fn number(&mut self) -> Result<Whole, Stuck> {
        if self.take(b'-').is_ok() {
            let size = self.decimal(LARGEST_WHOLE as u32 + 1)?;
            return Ok(-i64::from(size) as Whole);
        }
        Ok(self.decimal(LARGEST_WHOLE as u32)? as Whole)
    }

    // The last word, `..`: zeros follow, up to as many as an assignment has.
    fn filling(&mut self) -> Result<(), Stuck> {
        self.take(b'.')?;
        self.take(b'.')?;
        self.skip_spaces();
        self.end()
    }

    // The numbers, whose room comes as zeros, from where the boolean bits end; at the line's end they are all zeros.
    pub fn numbers<'t>(&mut self, room: &'t mut [Whole]) -> Result<&'t [Whole], Stuck>
        requires { last_number + 1 ≤ length room.old }
        ensures { IfOk result (λ numbers. length numbers.now ≤ last_number + 1) }
    {
        if self.rest.is_empty() {
            return Ok(&room[..ASSIGNED]);
        }
        self.take(b'/')?;
        for count in 0..=MOST_NUMBERS {
            self.skip_spaces();
            let [c, ..] = self.rest else {
                return Ok(&room[..count]);
            };
            if *c == b'.' {
                self.filling()?;
                return Ok(&room[..count.max(ASSIGNED)]);
            }
            if count == MOST_NUMBERS {
                break;
            }
            room[count] = self.number()?;
            if !matches!(self.rest, [] | [b' ', ..]) {
                break;
            }
        }
        Err(self.stuck())
    }
}
