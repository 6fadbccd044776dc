// `trim HEX / RATION / ROOM`: document 01's answer number, place, questions and ends, and the result; and it is said if a byte beyond
// the result was written. What is left out at the line's end is 0.
use crate::failure::Failure;
use condition::LONGEST_TREE;
use std::io;
use std::io::Write;
use travelring::{Trimming, bytes_written};
use typed::print::print;
use typed::result::{Hex, Told};
use typed::text::Line;

// What the output is before the call, so that a byte written beyond the result is seen.
const PRESET: u8 = 0xa5;

// Trims into the lent room, which is preset.
fn trim(out: &mut impl Write, tree: &[u8], ration: u32, room: &mut [u8]) -> io::Result<()> {
    let trimmed = travelring::trim(tree, ration, room);
    write!(out, "{}", Told(Trimming::from(trimmed)))?;
    let (bytes, beyond) = room.split_at(bytes_written(trimmed));
    if !bytes.is_empty() {
        write!(out, " {}", Hex(bytes))?;
    }
    if beyond.iter().any(|b| *b != PRESET) {
        print(out, b" written")?;
    }
    Ok(())
}

// From a line's ration on.
pub fn answer(out: &mut impl Write, mut line: Line<'_>, tree: &[u8]) -> Result<(), Failure> {
    let ration = line.part(u32::MAX)?;
    let room = line.part(LONGEST_TREE as u32)?;
    line.end()?;
    let mut lent = [PRESET; LONGEST_TREE];
    trim(out, tree, ration, &mut lent[..room as usize])?;
    Ok(())
}
