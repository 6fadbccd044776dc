// `judge HEX / BITS / NUMBERS`: document 01's answer number, place and value. What is left out at the line's end is 0, and a last word `..`
// stands for as many zeros as are missing.
use crate::failure::Failure;
use std::io::Write;
use travelring::Judgement;
use typed::text::{Line, MOST_NUMBERS};

// From a line's boolean bits on.
pub fn answer(out: &mut impl Write, mut line: Line<'_>, tree: &[u8]) -> Result<(), Failure> {
    let flags = line.part(u32::MAX)?;
    let mut room = [0; MOST_NUMBERS];
    let numbers = line.numbers(&mut room)?;
    let told = Judgement::from(travelring::judge(tree, flags, numbers));
    // The value goes out whole, in one write with the space before it.
    let value = if told.value { " true" } else { " false" };
    write!(out, "{} {}{value}", told.answer, told.place)?;
    Ok(())
}
