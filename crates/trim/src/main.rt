// Trims the condition whose bytes come on standard input, as document 01 describes the program.
#![tactic(auto)]

use condition::LONGEST_TREE;
use std::io;
use std::io::Write;
use travelring::{Trimming, bytes_written};
use typed::input::read_full;
use typed::result::{Hex, Told};

// "The program takes the first 256 bytes of standard input, ration 600, 190 bytes of output room."
const TAKEN: usize = 256;

const RATION: u32 = 600;

// Line one has the numbers; line two the result, and is empty after a refusal.
fn trim(out: &mut impl Write, tree: &[u8]) -> io::Result<()> {
    let mut room = [0u8; LONGEST_TREE];
    let trimmed = travelring::trim(tree, RATION, &mut room);
    let result = Hex(&room[..bytes_written(trimmed)]);
    write!(out, "{}\n{result}\n", Told(Trimming::from(trimmed)))
}

fn main(rt: HostRuntime) -> io::Result<()> {
    let mut taken = [0u8; TAKEN];
    let n = read_full(&mut rt.reader(), &mut taken)?;
    trim(&mut io::writer(&rt), &taken[..n])
}
