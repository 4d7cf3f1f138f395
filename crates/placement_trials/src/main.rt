// Runs the cases of the bill and of the ranking: a case to each line of standard input, and its answer on a line of standard
// output.
//
// `NAME bill SET SERVINGS LOADS FILE` lends buffers of so many entries: `NAME total TOTAL`, or `NAME refused RULE RECORD`, and
// then both buffers, whole. Before the call each entry of the servings is 4321, and of the loads 987654321.
// `NAME rank FIRST SECOND FILE`: `NAME first`, `NAME second` or `NAME refused RULE RECORD`, and then the set handed back.
#![tactic(auto)]

use compare::Ranking;
use std::io;
use std::io::Write;
use tree_file::Refusal;
use trial_text::{Case, FILE_ROOM};
use units::Total;

// The most numbers of a set, and the most entries of a buffer.
const MOST: usize = 1100;

fn print_bill<W: Write>(out: &mut W, bill: Result<Total, Refusal>) -> io::Result<()> {
    match bill {
        Ok(total) => write!(out, " total {}", total.0),
        Err(refusal) => trial_text::print_refusal(out, refusal),
    }
}

fn print_ranking<W: Write>(out: &mut W, ranking: Result<Ranking, Refusal>) -> io::Result<()> {
    match ranking {
        Ok(Ranking::First) => out.write_all(b" first"),
        Ok(Ranking::Second) => out.write_all(b" second"),
        Err(refusal) => trial_text::print_refusal(out, refusal),
    }
}

fn bill_case<W: Write>(out: &mut W, case: Case<'_>) -> io::Result<()> {
    let mut set = [0u16; MOST];
    let set = case.numbers(2, &mut set);
    let mut servings = [4321u16; MOST];
    let servings = case.lent(3, &mut servings);
    let mut loads = [987654321u64; MOST];
    let loads = case.lent(4, &mut loads);
    let mut file = [0u8; FILE_ROOM];
    let file = case.file(5, &mut file);
    print_bill(out, placement::bill(file, set, servings, loads))?;
    trial_text::print_numbers(out, b" servings", servings)?;
    trial_text::print_numbers(out, b" loads", loads)
}

fn rank_case<W: Write>(out: &mut W, case: Case<'_>) -> io::Result<()> {
    let mut first = [0u16; MOST];
    let first = case.numbers(2, &mut first);
    let mut second = [0u16; MOST];
    let second = case.numbers(3, &mut second);
    let mut file = [0u8; FILE_ROOM];
    let file = case.file(4, &mut file);
    print_ranking(out, compare::rank(file, first, second))?;
    trial_text::print_numbers(out, b" winner", compare::winner(file, first, second))
}

fn answer<W: Write>(out: &mut W, case: Case<'_>) -> io::Result<()> {
    trial_text::print_name(out, case)?;
    match case.word(1) {
        b"bill" => bill_case(out, case)?,
        b"rank" => rank_case(out, case)?,
        _ => {}
    }
    trial_text::end_line(out)
}

fn main(rt: HostRuntime) -> io::Result<()> {
    trial_text::answer_cases(&rt, answer)
}
