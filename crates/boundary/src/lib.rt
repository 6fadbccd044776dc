// The C boundary. Each call returns document 01's number and writes its report, a place and what comes with it, in every answer. The crate
// boundary_c exports these calls.
#![tactic(auto)]

ghost use Rattle.travelring.specs.Judging.{judged};
ghost use Rattle.boundary.specs.Reports.{ReportsJudged, ReportsFound, ReportsTrimmed};

use condition::Whole;
use travelring::{Finding, Judgement, Trimming, bytes_written};

// Judges the condition; the report is place and value.
pub fn travelring_judge(tree: &[u8], flags: u32, numbers: &[Whole], report: &mut [u64; 2]) -> u32
    ensures { ReportsJudged (judged tree.now flags numbers.now) result report.old report.new }
{
    let judgement = Judgement::from(travelring::judge(tree, flags, numbers));
    report[0] = judgement.place as u64;
    report[1] = u64::from(judgement.value);
    judgement.answer
}

// Finds an assignment; the report is place and boolean bits.
pub fn travelring_find(tree: &[u8], numbers: &mut [Whole], report: &mut [u64; 2]) -> u32
    ensures { ReportsFound tree.now numbers.old numbers.new result report.old report.new }
{
    let finding = Finding::from(travelring::find(tree, numbers));
    report[0] = finding.place as u64;
    report[1] = u64::from(finding.flags);
    finding.answer
}

// Trims the condition; the report is place, questions asked, ends of the result and bytes written.
pub fn travelring_trim(tree: &[u8], ration: u32, out: &mut [u8], report: &mut [u64; 4]) -> u32
    ensures { ReportsTrimmed tree.now ration out.old out.new result report.old report.new }
{
    let trimmed = travelring::trim(tree, ration, out);
    let trimming = Trimming::from(trimmed);
    report[0] = trimming.place as u64;
    report[1] = u64::from(trimming.questions);
    report[2] = u64::from(trimming.ends);
    report[3] = bytes_written(trimmed) as u64;
    trimming.answer
}
