// Runs the cases of the call from a target to a budget: a case to each line of standard input, and its answer on a line of standard
// output.
//
// `NAME TARGET SCRATCH BEYOND ROW FILE` lends a scratch of so many words and a row of so many entries: `NAME budget BUDGET`, `NAME
// none` where every plan costs more than the target, or `NAME refused RULE RECORD`, then `row` and all entries of the row, and
// whether the words of the scratch from BEYOND on are as they were. Before the call each word of the scratch is 5432123, and each
// entry of the row 4321.
#![tactic(auto)]

use std::io;
use std::io::Write;
use tree_file::Refusal;
use trial_text::{Case, FILE_ROOM, SCRATCH_ROOM, SCRATCH_WORD};
use units::Total;

fn print_answer<W: Write>(out: &mut W, answer: Result<Option<u16>, Refusal>) -> io::Result<()> {
    match answer {
        Ok(Some(budget)) => write!(out, " budget {budget}"),
        Ok(None) => out.write_all(b" none"),
        Err(refusal) => trial_text::print_refusal(out, refusal),
    }
}

fn answer<W: Write>(out: &mut W, case: Case<'_>) -> io::Result<()> {
    trial_text::print_name(out, case)?;
    let target = Total(case.number(1));
    let mut scratch = [SCRATCH_WORD; SCRATCH_ROOM];
    let scratch = case.lent(2, &mut scratch);
    let beyond = case.number_within(3, SCRATCH_ROOM);
    let mut row = [4321u16; 40];
    let row = case.lent(4, &mut row);
    let mut file = [0u8; FILE_ROOM];
    let file = case.file(5, &mut file);
    print_answer(out, least_budget::from_target(file, target, scratch, row))?;
    trial_text::print_numbers(out, b" row", row)?;
    trial_text::print_kept(out, scratch, beyond, SCRATCH_WORD)?;
    trial_text::end_line(out)
}

fn main(rt: HostRuntime) -> io::Result<()> {
    trial_text::answer_cases(&rt, answer)
}
