// `find HEX`: document 01's answer number and place. Which assignment is found is free, so it is not printed, but what judge says of it;
// and it is said if a number is out of range, or was written by a refusal.
use crate::failure::Failure;
use condition::{ASSIGNED, FARTHEST, Whole};
use std::io;
use std::io::Write;
use travelring::{Finding, Judgement};
use typed::print::print;
use typed::text::Line;

// What the numbers are before the call, so that a refusal that writes them is seen.
const PRESET: Whole = 7;

fn print_shown(out: &mut impl Write, tree: &[u8], bits: u32, numbers: &[Whole]) -> io::Result<()> {
    let judged = Judgement::from(travelring::judge(tree, bits, numbers));
    // In one write, as judge's value.
    let value = if judged.value {
        " judged true"
    } else {
        " judged false"
    };
    write!(out, "{value}")?;
    // Document 01 bounds each number that is written.
    if !numbers.iter().all(|n| n.unsigned_abs() <= FARTHEST) {
        print(out, b" out of range")?;
    }
    Ok(())
}

fn find(out: &mut impl Write, tree: &[u8]) -> io::Result<()> {
    let mut numbers = [PRESET; ASSIGNED];
    let found = travelring::find(tree, &mut numbers);
    let told = Finding::from(found);
    write!(out, "{} {}", told.answer, told.place)?;
    if let Ok(bits) = found {
        return print_shown(out, tree, bits, &numbers);
    }
    if numbers != [PRESET; ASSIGNED] {
        print(out, b" written")?;
    }
    Ok(())
}

// Nothing comes after the condition.
pub fn answer(out: &mut impl Write, line: Line<'_>, tree: &[u8]) -> Result<(), Failure> {
    line.end()?;
    find(out, tree)?;
    Ok(())
}
