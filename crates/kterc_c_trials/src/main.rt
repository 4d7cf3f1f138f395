// Runs the cases of the calls for hosts in C: a case to each line of standard input, and its answer on a line of standard
// output.
//
// A case is `NAME CALL FILE`, and then the arrays that are lent, each by how many entries it has, a set by its members:
// `check` and `words` take none, `rank` takes the sets FIRST SECOND, `bill` SET TOTAL SERVING LOADS, `plan` SCRATCH BEYOND TOTALS
// ROWS, `greedy` SCRATCH BEYOND TOTALS GREEDY_NODES, `report` SCRATCH BEYOND TOTALS ROWS GREEDY_TOTALS GREEDY_NODES,
// `with_without`, after the numbers NODE BUDGET, SCRATCH BEYOND TOTALS, and `target`, after the number TARGET, SCRATCH BEYOND
// BUDGET ROW; `record` takes the number NODE alone.
// Its answer is `NAME NUMBER`, the number that the call answers, then each array by its name, whole, and `kept` if the words of
// the scratch from BEYOND on are as they were. Before the call each word of the scratch is 5432123, each entry of TOTAL and
// TOTALS 987654321, of SERVING, ROWS and ROW 4321, of LOADS and GREEDY_TOTALS 123456789, and of GREEDY_NODES and BUDGET 1234.
#![tactic(auto)]

use std::io;
use std::io::Write;
use trial_text::{Case, FILE_ROOM, SCRATCH_WORD};

// The most words of the scratch.
const WORDS: usize = 9000;

fn rank_case<W: Write>(out: &mut W, case: Case<'_>, file: &[u8]) -> io::Result<()> {
    let mut first = [0u16; 1100];
    let first = case.numbers(3, &mut first);
    let mut second = [0u16; 1100];
    let second = case.numbers(4, &mut second);
    trial_text::print_number(out, kterc_c::kterc_rank(file, first, second))
}

fn bill_case<W: Write>(out: &mut W, case: Case<'_>, file: &[u8]) -> io::Result<()> {
    let mut set = [0u16; 1100];
    let set = case.numbers(3, &mut set);
    let mut total = [987654321u64; 40];
    let total = case.lent(4, &mut total);
    let mut serving = [4321u16; 1100];
    let serving = case.lent(5, &mut serving);
    let mut loads = [123456789u64; 1100];
    let loads = case.lent(6, &mut loads);
    let code = kterc_c::kterc_bill(file, set, total, serving, loads);
    trial_text::print_number(out, code)?;
    trial_text::print_numbers(out, b" total", total)?;
    trial_text::print_numbers(out, b" serving", serving)?;
    trial_text::print_numbers(out, b" loads", loads)
}

fn plan_case<W: Write>(out: &mut W, case: Case<'_>, file: &[u8]) -> io::Result<()> {
    let mut scratch = [SCRATCH_WORD; WORDS];
    let scratch = case.lent(3, &mut scratch);
    let beyond = case.number_within(4, WORDS);
    let mut totals = [987654321u64; 40];
    let totals = case.lent(5, &mut totals);
    let mut rows = [4321u16; 1100];
    let rows = case.lent(6, &mut rows);
    let code = kterc_c::kterc_plan(file, scratch, totals, rows);
    trial_text::print_number(out, code)?;
    trial_text::print_plan(out, totals, rows)?;
    trial_text::print_kept(out, scratch, beyond, SCRATCH_WORD)
}

fn greedy_case<W: Write>(out: &mut W, case: Case<'_>, file: &[u8]) -> io::Result<()> {
    let mut scratch = [SCRATCH_WORD; WORDS];
    let scratch = case.lent(3, &mut scratch);
    let beyond = case.number_within(4, WORDS);
    let mut totals = [987654321u64; 40];
    let totals = case.lent(5, &mut totals);
    let mut greedy_nodes = [1234u16; 40];
    let greedy_nodes = case.lent(6, &mut greedy_nodes);
    let code = kterc_c::kterc_greedy(file, scratch, totals, greedy_nodes);
    trial_text::print_number(out, code)?;
    trial_text::print_numbers(out, b" totals", totals)?;
    trial_text::print_numbers(out, b" greedy_nodes", greedy_nodes)?;
    trial_text::print_kept(out, scratch, beyond, SCRATCH_WORD)
}

fn report_case<W: Write>(out: &mut W, case: Case<'_>, file: &[u8]) -> io::Result<()> {
    let mut scratch = [SCRATCH_WORD; WORDS];
    let scratch = case.lent(3, &mut scratch);
    let beyond = case.number_within(4, WORDS);
    let mut totals = [987654321u64; 40];
    let totals = case.lent(5, &mut totals);
    let mut rows = [4321u16; 1100];
    let rows = case.lent(6, &mut rows);
    let mut greedy_totals = [123456789u64; 40];
    let greedy_totals = case.lent(7, &mut greedy_totals);
    let mut greedy_nodes = [1234u16; 40];
    let greedy_nodes = case.lent(8, &mut greedy_nodes);
    let code = kterc_c::kterc_report(file, scratch, totals, rows, greedy_totals, greedy_nodes);
    trial_text::print_number(out, code)?;
    trial_text::print_plan(out, totals, rows)?;
    trial_text::print_numbers(out, b" greedy_totals", greedy_totals)?;
    trial_text::print_numbers(out, b" greedy_nodes", greedy_nodes)?;
    trial_text::print_kept(out, scratch, beyond, SCRATCH_WORD)
}

fn with_without_case<W: Write>(out: &mut W, case: Case<'_>, file: &[u8]) -> io::Result<()> {
    let node = case.number(3) as usize;
    let budget = case.number(4) as usize;
    let mut scratch = [SCRATCH_WORD; WORDS];
    let scratch = case.lent(5, &mut scratch);
    let beyond = case.number_within(6, WORDS);
    let mut totals = [987654321u64; 40];
    let totals = case.lent(7, &mut totals);
    let code = kterc_c::kterc_with_without(file, node, budget, scratch, totals);
    trial_text::print_number(out, code)?;
    trial_text::print_numbers(out, b" totals", totals)?;
    trial_text::print_kept(out, scratch, beyond, SCRATCH_WORD)
}

fn target_case<W: Write>(out: &mut W, case: Case<'_>, file: &[u8]) -> io::Result<()> {
    let mut scratch = [SCRATCH_WORD; WORDS];
    let scratch = case.lent(4, &mut scratch);
    let beyond = case.number_within(5, WORDS);
    let mut budget = [1234u16; 40];
    let budget = case.lent(6, &mut budget);
    let mut row = [4321u16; 40];
    let row = case.lent(7, &mut row);
    let code = kterc_c::kterc_target(file, case.number(3), scratch, budget, row);
    trial_text::print_number(out, code)?;
    trial_text::print_numbers(out, b" budget", budget)?;
    trial_text::print_numbers(out, b" row", row)?;
    trial_text::print_kept(out, scratch, beyond, SCRATCH_WORD)
}

fn answer_call<W: Write>(out: &mut W, case: Case<'_>, file: &[u8]) -> io::Result<()> {
    match case.word(1) {
        b"check" => trial_text::print_number(out, kterc_c::kterc_check(file)),
        b"words" => trial_text::print_number(out, kterc_c::kterc_scratch_words(file)),
        b"record" => {
            let place = kterc_c::kterc_record(file, case.number(3) as usize);
            trial_text::print_number(out, place)
        }
        b"rank" => rank_case(out, case, file),
        b"bill" => bill_case(out, case, file),
        b"plan" => plan_case(out, case, file),
        b"greedy" => greedy_case(out, case, file),
        b"report" => report_case(out, case, file),
        b"with_without" => with_without_case(out, case, file),
        b"target" => target_case(out, case, file),
        _ => Ok(()),
    }
}

fn answer<W: Write>(out: &mut W, case: Case<'_>) -> io::Result<()> {
    trial_text::print_name(out, case)?;
    let mut file = [0u8; FILE_ROOM];
    let file = case.file(2, &mut file);
    answer_call(out, case, file)?;
    trial_text::end_line(out)
}

fn main(rt: HostRuntime) -> io::Result<()> {
    trial_text::answer_cases(&rt, answer)
}
