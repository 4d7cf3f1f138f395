// Runs the cases of the greedy rule: a case to each line of standard input, and its answer on a line of standard output.
//
// `NAME SCRATCH BEYOND TOTALS TAKEN FILE` lends a scratch of so many words and buffers of so many entries, each of them 9:
// `NAME accepted` or `NAME refused RULE RECORD`, then both buffers, whole, and `kept` if the words of the scratch from BEYOND on
// are as they were.
#![tactic(auto)]

use std::io;
use std::io::Write;
use trial_text::{Case, FILE_ROOM, SCRATCH_ROOM};

fn answer<W: Write>(out: &mut W, case: Case<'_>) -> io::Result<()> {
    trial_text::print_name(out, case)?;
    let mut scratch = [9u64; SCRATCH_ROOM];
    let scratch = case.lent(1, &mut scratch);
    let beyond = case.number_within(2, SCRATCH_ROOM);
    let mut totals = [9u64; 64];
    let totals = case.lent(3, &mut totals);
    let mut taken = [9u16; 64];
    let taken = case.lent(4, &mut taken);
    let mut file = [0u8; FILE_ROOM];
    let file = case.file(5, &mut file);
    trial_text::print_ruling(out, greedy::greedy(file, scratch, totals, taken))?;
    trial_text::print_numbers(out, b" totals", totals)?;
    trial_text::print_numbers(out, b" taken", taken)?;
    trial_text::print_kept(out, scratch, beyond, 9)?;
    trial_text::end_line(out)
}

fn main(rt: HostRuntime) -> io::Result<()> {
    trial_text::answer_cases(&rt, answer)
}
