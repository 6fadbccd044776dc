// Answers lines typed as text. A line is a call: a verb, a condition's bytes, then what else the call takes. It is printed with what the call
// answers, or where it is not understood. A heading, which begins with `#`, is printed as it is.
#![tactic(auto)]

mod failure;
mod find_line;
mod judge_line;
mod trim_line;

use failure::Failure;
use std::io;
use std::io::Write;
use typed::input::read_full;
use typed::print::print;
use typed::text::{Line, MOST_BYTES, Stuck};

// Room for all the lines.
const MOST_TEXT: usize = 262144;

#[derive(Clone, Copy)]
enum Verb {
    Trim,
    Judge,
    Find,
}

fn verb_of(word: &[u8]) -> Option<Verb> {
    match word {
        b"trim" => Some(Verb::Trim),
        b"judge" => Some(Verb::Judge),
        b"find" => Some(Verb::Find),
        _ => None,
    }
}

fn answer(out: &mut impl Write, line: &[u8]) -> Result<(), Failure> {
    let (word, mut line) = Line::first_word(line);
    let verb = verb_of(word).ok_or(Stuck { at: 0 })?;
    let mut room = [0; MOST_BYTES];
    let tree = line.tree(&mut room)?;
    match verb {
        Verb::Trim => trim_line::answer(out, line, tree),
        Verb::Judge => judge_line::answer(out, line, tree),
        Verb::Find => find_line::answer(out, line, tree),
    }
}

fn answer_line(out: &mut impl Write, line: &[u8]) -> io::Result<()> {
    print(out, line)?;
    if !line.starts_with(b"#") {
        print(out, b" => ")?;
        match answer(out, line) {
            Ok(()) => {}
            Err(Failure::Stuck(stuck)) => write!(out, "{stuck}")?,
            Err(Failure::Output(why)) => return Err(why),
        }
    }
    print(out, b"\n")
}

fn answer_lines(out: &mut impl Write, text: &[u8]) -> io::Result<()> {
    for line in text.split_inclusive(|c| *c == b'\n') {
        answer_line(out, line.strip_suffix(b"\n").unwrap_or(line))?;
    }
    Ok(())
}

fn main(rt: HostRuntime) -> io::Result<()> {
    let mut text = [0u8; MOST_TEXT];
    let n = read_full(&mut rt.reader(), &mut text)?;
    answer_lines(&mut io::writer(&rt), &text[..n])
}
