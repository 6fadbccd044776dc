// The calls of the C boundary as C links them: each export is the call of the same name, with the same contract: a twin
// of each, since C links names that are exported.
#![tactic(auto)]

ghost use Rattle.travelring.specs.Judging.{judged};
ghost use Rattle.boundary.specs.Reports.{ReportsJudged, ReportsFound, ReportsTrimmed};

use condition::Whole;

// Judges the condition; the report is place and value.
#[unsafe(no_mangle)]
pub extern "C" fn travelring_judge(
    tree: &[u8],
    flags: u32,
    numbers: &[Whole],
    report: &mut [u64; 2],
) -> u32
    ensures { ReportsJudged (judged tree.now flags numbers.now) result report.old report.new }
{
    boundary::travelring_judge(tree, flags, numbers, report)
}

// Finds an assignment; the report is place and boolean bits.
#[unsafe(no_mangle)]
pub extern "C" fn travelring_find(tree: &[u8], numbers: &mut [Whole], report: &mut [u64; 2]) -> u32
    ensures { ReportsFound tree.now numbers.old numbers.new result report.old report.new }
{
    boundary::travelring_find(tree, numbers, report)
}

// Trims the condition; the report is place, questions asked, ends of the result and bytes written.
#[unsafe(no_mangle)]
pub extern "C" fn travelring_trim(
    tree: &[u8],
    ration: u32,
    out: &mut [u8],
    report: &mut [u64; 4],
) -> u32
    ensures { ReportsTrimmed tree.now ration out.old out.new result report.old report.new }
{
    boundary::travelring_trim(tree, ration, out, report)
}
