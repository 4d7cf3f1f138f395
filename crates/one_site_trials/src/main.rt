// Runs the cases of the call for one node: a case to each line of standard input, and its answer on a line of standard output.
//
// `NAME NODE BUDGET SCRATCH BEYOND FILE` lends a scratch of so many words: `NAME with TOTAL without TOTAL`, `NAME none without TOTAL`
// where no set contains the node, or `NAME refused RULE RECORD`, then whether the words of the scratch from BEYOND on are as they
// were. Before the call each word of the scratch is 5432123.
#![tactic(auto)]

use one_site::Leasts;
use std::io;
use std::io::Write;
use tree_file::Refusal;
use trial_text::{Case, FILE_ROOM, SCRATCH_ROOM, SCRATCH_WORD};

fn print_answer<W: Write>(out: &mut W, answer: Result<Leasts, Refusal>) -> io::Result<()> {
    match answer {
        Ok(Leasts { with, without }) => {
            match with {
                Some(total) => write!(out, " with {}", total.0)?,
                None => out.write_all(b" none")?,
            }
            write!(out, " without {}", without.0)
        }
        Err(refusal) => trial_text::print_refusal(out, refusal),
    }
}

fn answer<W: Write>(out: &mut W, case: Case<'_>) -> io::Result<()> {
    trial_text::print_name(out, case)?;
    let node = case.number(1) as usize;
    let budget = case.number(2) as usize;
    let mut scratch = [SCRATCH_WORD; SCRATCH_ROOM];
    let scratch = case.lent(3, &mut scratch);
    let beyond = case.number_within(4, SCRATCH_ROOM);
    let mut file = [0u8; FILE_ROOM];
    let file = case.file(5, &mut file);
    print_answer(out, one_site::with_or_without(file, node, budget, scratch))?;
    trial_text::print_kept(out, scratch, beyond, SCRATCH_WORD)?;
    trial_text::end_line(out)
}

fn main(rt: HostRuntime) -> io::Result<()> {
    trial_text::answer_cases(&rt, answer)
}
