// The public calls of Travelring: each answers for every input.
#![tactic(auto)]

ghost use Rattle.std.specs.Prelude.{◌≡◌};
ghost use Rattle.travelring.specs.Judging.{told, judged};
ghost use Rattle.travelring.specs.Finding.{told_found, Finds};
ghost use Rattle.travelring.specs.Trimming.{told_trimmed, length_told, Trims};
ghost use Rattle.travelring.specs.declared.JudgeRefusal.TheVariants as judge_refusal;
ghost use Rattle.travelring.specs.declared.FindRefusal.TheVariants as find_refusal;
ghost use Rattle.travelring.specs.declared.TrimRefusal.TheVariants as trim_refusal;

use condition::{ASSIGNED, Whole};
use cursor::Refusal;
use judging::Assignment;
use reading::Held;

// Why judge gives no value: a refusal of the bytes, or numbers that aren't as many as an assignment has.
#[derive(Clone, Copy)]
pub enum JudgeRefusal {
    Bytes(Refusal),
    Unfit,
}

// Why find shows no assignment: as judge, or that there is none.
#[derive(Clone, Copy)]
pub enum FindRefusal {
    Bytes(Refusal),
    Unfit,
    Nothing,
}

// Why trim writes nothing: a refusal of the bytes, or an output too short for the result, and the bytes needed.
#[derive(Clone, Copy)]
pub enum TrimRefusal {
    Bytes(Refusal),
    Long(usize),
}

// What trim wrote: whether the work ended or the ration was used up first, the questions asked, the ends of the result and its bytes.
#[derive(Clone, Copy)]
pub struct Trimmed {
    pub finished: bool,
    pub questions: u32,
    pub ends: u32,
    pub bytes: usize,
}

// An answer by document 01's number and place, and what comes with it: C and the programs are told it so.
#[derive(Clone, Copy)]
pub struct Judgement {
    pub answer: u32,
    pub place: usize,
    pub value: bool,
}

#[derive(Clone, Copy)]
pub struct Finding {
    pub answer: u32,
    pub place: usize,
    pub flags: u32,
}

#[derive(Clone, Copy)]
pub struct Trimming {
    pub answer: u32,
    pub place: usize,
    pub questions: u32,
    pub ends: u32,
}

// Each call's error has the cases that the call can have, and no others: so the bytes' refusal comes into each.
impl From<Refusal> for JudgeRefusal {
    ghost from_gives = { λ why r. r ≡ judge_refusal.Bytes why };

    fn from(why: Refusal) -> JudgeRefusal {
        JudgeRefusal::Bytes(why)
    }
}

impl From<Refusal> for FindRefusal {
    ghost from_gives = { λ why r. r ≡ find_refusal.Bytes why };

    fn from(why: Refusal) -> FindRefusal {
        FindRefusal::Bytes(why)
    }
}

impl From<Refusal> for TrimRefusal {
    ghost from_gives = { λ why r. r ≡ trim_refusal.Bytes why };

    fn from(why: Refusal) -> TrimRefusal {
        TrimRefusal::Bytes(why)
    }
}

impl From<Result<bool, JudgeRefusal>> for Judgement {
    ghost from_gives = { λ judged r. r ≡ told judged };

    fn from(judged: Result<bool, JudgeRefusal>) -> Judgement {
        let (answer, place, value) = match judged {
            Ok(value) => (0, 0, value),
            Err(JudgeRefusal::Bytes(why)) => (why.number(), why.place(), false),
            Err(JudgeRefusal::Unfit) => (11, 0, false),
        };
        Judgement {
            answer,
            place,
            value,
        }
    }
}

impl From<Result<u32, FindRefusal>> for Finding {
    ghost from_gives = { λ found r. r ≡ told_found found };

    fn from(found: Result<u32, FindRefusal>) -> Finding {
        let (answer, place, flags) = match found {
            Ok(flags) => (0, 0, flags),
            Err(FindRefusal::Bytes(why)) => (why.number(), why.place(), 0),
            Err(FindRefusal::Unfit) => (11, 0, 0),
            Err(FindRefusal::Nothing) => (12, 0, 0),
        };
        Finding {
            answer,
            place,
            flags,
        }
    }
}

impl From<Result<Trimmed, TrimRefusal>> for Trimming {
    ghost from_gives = { λ trimmed r. r ≡ told_trimmed trimmed };

    fn from(trimmed: Result<Trimmed, TrimRefusal>) -> Trimming {
        let (answer, place, questions, ends) = match trimmed {
            Ok(t) => (if t.finished { 0 } else { 10 }, 0, t.questions, t.ends),
            Err(TrimRefusal::Bytes(why)) => (why.number(), why.place(), 0, 0),
            Err(TrimRefusal::Long(needed)) => (9, needed, 0, 0),
        };
        Trimming {
            answer,
            place,
            questions,
            ends,
        }
    }
}

// How many bytes a call of trim wrote.
pub fn bytes_written(trimmed: Result<Trimmed, TrimRefusal>) -> usize
    ensures { result ≡ length_told trimmed }
{
    match trimmed {
        Ok(t) => t.bytes,
        Err(_) => 0,
    }
}

// Whether the condition written in tree is true where boolean p is the bit of weight 2^p of flags, and number x is numbers[x - 1]:
// bits and numbers apart, as document 01 lists them and C lends them.
pub fn judge(tree: &[u8], flags: u32, numbers: &[Whole]) -> Result<bool, JudgeRefusal>
    ensures { told result ≡ judged tree.now flags numbers.now }
{
    if numbers.len() != ASSIGNED {
        return Err(JudgeRefusal::Unfit);
    }
    let Held { nodes, answer } = reading::read(tree);
    answer?;
    Ok(judging::judge(&nodes, Assignment { flags, numbers }))
}

// An assignment that makes the condition written in tree true: its numbers are written, its boolean bits returned,
// apart as in judge.
pub fn find(tree: &[u8], numbers: &mut [Whole]) -> Result<u32, FindRefusal>
    ensures { Finds tree.now numbers.old result numbers.new }
{
    if numbers.len() != ASSIGNED {
        return Err(FindRefusal::Unfit);
    }
    let Held { nodes, answer } = reading::read(tree);
    answer?;
    let Some(found) = settling::find(&nodes) else {
        return Err(FindRefusal::Nothing);
    };
    numbers.copy_from_slice(&found.numbers);
    Ok(found.flags)
}

// Trims the condition written in tree with at most `ration` questions: the result is written from the output's start.
pub fn trim(tree: &[u8], ration: u32, out: &mut [u8]) -> Result<Trimmed, TrimRefusal>
    ensures { Trims tree.now ration out.old result out.new }
{
    let Held { nodes, answer } = reading::read(tree);
    answer?;
    let swept = sweeping::sweep(&nodes, ration);
    let room = out.len();
    let bytes = writing::write(&swept.tree, out);
    if room < bytes {
        return Err(TrimRefusal::Long(bytes));
    }
    let ends = asking::live(&swept.tree) as u32;
    Ok(Trimmed {
        finished: swept.finished,
        questions: swept.asked,
        ends: ends,
        bytes: bytes,
    })
}
