// Tries assignments on what the program `lines` printed of each `trim`, and shares no code with the library. For each line it prints whether the
// condition and the result agree under every assignment, how many of the ends are left, and whether each of these makes a difference.
#![tactic(auto)]

mod read;
mod text;
mod trial;

ghost use Rattle.std.specs.Prelude.{◌≤◌, ◌<◌, length, take, IfOk, IfSome, OnOk};
ghost use Rattle.std.specs.Io.KnownBytes.{Appends, Consumes, IsAtEnd};

use read::{MOST_NODES, Node, Tree, read_tree};
use std::io;
use std::io::{Read, Write};
use text::cut;
use trial::{differ, made};

const MOST_TEXT: usize = 131072;

#[derive(Clone, Copy)]
enum Answer {
    Finished,
    Stopped,
    Refused,
}

// The other programs have the like, and this one shares nothing with them.
fn print<W: Write>(out: &mut W, text: &[u8]) -> io::Result<()>
    ensures { OnOk result (Appends (W.contents out.old) (W.contents out.new) text.now) }
{
    out.write_all(text)
}

// The ends, constants aside.
fn count_ends(tree: &Tree) -> usize
    ensures { result ≤ MOST_NODES }
{
    tree.iter()
        .filter(|node| matches!(node, Node::End(_)))
        .count()
}

// Document 000, definition 5: an end is redundant if making it true, or making it false, changes the value under no assignment.
fn is_redundant(tree: &Tree, i: usize) -> bool {
    !differ(tree, &made(tree, i, true)) || !differ(tree, &made(tree, i, false))
}

// Which end, counted from 1, is the first that is redundant. Ends are counted apart from nodes, as constants and joins stand between them.
fn first_redundant(tree: &Tree) -> Option<usize>
    ensures { IfSome result (λ end. end ≤ MOST_NODES) }
{
    let mut end = 0;
    for (i, node) in tree.iter().enumerate() {
        if let Node::End(_) = node {
            end += 1;
            if is_redundant(tree, i) {
                return Some(end);
            }
        }
    }
    None
}

// How many ends are left of how many there were, where demand 2 allows no more. A stopped sweep may leave redundant ends, so these are looked
// for only in a finished result.
fn compare(
    out: &mut impl Write,
    condition: &Tree,
    trimmed: &Tree,
    finished: bool,
) -> io::Result<()> {
    if differ(condition, trimmed) {
        return print(out, b"differs");
    }
    let left = count_ends(trimmed);
    let ends = count_ends(condition);
    write!(out, "same, {left} of {ends} ends")?;
    if ends < left {
        print(out, b", more than before")?;
    }
    if !finished {
        return print(out, b", stopped");
    }
    match first_redundant(trimmed) {
        None => print(out, b", each matters"),
        Some(end) => write!(out, ", end {end} does not matter"),
    }
}

// 0 is finished and 10 stopped; every other number is a refusal.
fn answer_of(word: &[u8]) -> Option<Answer> {
    match word {
        [b'0', ..] => Some(Answer::Finished),
        [b'1', b'0', ..] => Some(Answer::Stopped),
        [b'1'..=b'9', ..] => Some(Answer::Refused),
        _ => None,
    }
}

fn check_trees(
    out: &mut impl Write,
    condition: &[u8],
    trimmed: &[u8],
    finished: bool,
) -> io::Result<()> {
    let Some(condition) = read_tree(condition) else {
        return print(out, b"condition not understood");
    };
    let Some(trimmed) = read_tree(trimmed) else {
        return print(out, b"result not understood");
    };
    compare(out, &condition, &trimmed, finished)
}

// A line has a verb, a condition, ration and room, and after `=>` the answer, place, questions, ends and result.
fn check(out: &mut impl Write, line: &[u8]) -> io::Result<()> {
    let (_verb, call) = cut(line, b' ');
    let (condition, _rest) = cut(call, b'/');
    let (_call, told) = cut(line, b'>');
    let (_space, told) = cut(told, b' ');
    let (answer, told) = cut(told, b' ');
    let (_place, told) = cut(told, b' ');
    let (_questions, told) = cut(told, b' ');
    let (_ends, trimmed) = cut(told, b' ');
    match answer_of(answer) {
        Some(Answer::Finished) => check_trees(out, condition, trimmed, true),
        Some(Answer::Stopped) => check_trees(out, condition, trimmed, false),
        Some(Answer::Refused) => print(out, b"refused"),
        None => print(out, b"answer not understood"),
    }
}

fn check_line(out: &mut impl Write, line: &[u8]) -> io::Result<()> {
    if line.starts_with(b"#") {
        print(out, line)?;
    } else {
        check(out, line)?;
    }
    print(out, b"\n")
}

// lines has the like, which this program does not share.
fn check_lines(out: &mut impl Write, text: &[u8]) -> io::Result<()> {
    for line in text.split_inclusive(|c| *c == b'\n') {
        check_line(out, line.strip_suffix(b"\n").unwrap_or(line))?;
    }
    Ok(())
}

// Reads until the text is full or the input ends, and says how many bytes were read, as `Read::read` does: the promises are about these. (No
// `for`: how many bytes a read brings is for the input to say. typed has the like, which this program does not share.)
fn read_full<R: Read>(input: &mut R, text: &mut [u8]) -> io::Result<usize>
    ensures bound { IfOk result (λ n. n ≤ length text.new) }
    ensures bytes { IfOk result (λ n. Consumes (R.remaining input.old) (R.remaining input.new) (take n text.new)) }
    ensures end { IfOk result (λ n. n < length text.new → IsAtEnd (R.remaining input.new)) }
{
    let mut n = 0;
    while n < text.len() {
        let more = input.read(&mut text[n..])?;
        if more == 0 {
            return Ok(n);
        }
        n += more;
    }
    Ok(n)
}

fn main(rt: HostRuntime) -> io::Result<()> {
    let mut text = [0u8; MOST_TEXT];
    let n = read_full(&mut rt.reader(), &mut text)?;
    check_lines(&mut io::writer(&rt), &text[..n])
}
