// Runs the cases of the plan: a case to each line of standard input, and its answer on a line of standard output.
//
// `NAME SCRATCH BEYOND TOTALS ROWS FILE` lends a scratch of so many words and buffers of so many entries: `NAME accepted`, or
// `NAME refused RULE RECORD`, then both buffers, whole, and whether the words of the scratch from BEYOND on are as they were.
// Before the call each word of the scratch is 5432123, each total 987654321 and each entry of the rows 4321.
#![tactic(auto)]

use std::io;
use std::io::Write;
use trial_text::{Case, FILE_ROOM, SCRATCH_ROOM, SCRATCH_WORD};

fn answer<W: Write>(out: &mut W, case: Case<'_>) -> io::Result<()> {
    trial_text::print_name(out, case)?;
    let mut scratch = [SCRATCH_WORD; SCRATCH_ROOM];
    let scratch = case.lent(1, &mut scratch);
    let beyond = case.number_within(2, SCRATCH_ROOM);
    let mut totals = [987654321u64; 40];
    let totals = case.lent(3, &mut totals);
    let mut rows = [4321u16; 1100];
    let rows = case.lent(4, &mut rows);
    let mut file = [0u8; FILE_ROOM];
    let file = case.file(5, &mut file);
    trial_text::print_ruling(out, optimum::plan(file, scratch, totals, rows))?;
    trial_text::print_plan(out, totals, rows)?;
    trial_text::print_kept(out, scratch, beyond, SCRATCH_WORD)?;
    trial_text::end_line(out)
}

fn main(rt: HostRuntime) -> io::Result<()> {
    trial_text::answer_cases(&rt, answer)
}
