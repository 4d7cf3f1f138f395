// The calls for hosts in C, as include/kterc.h declares them: each slice is a pointer and a length.
#![tactic(auto)]

ghost use Rattle.std.specs.Prelude.{◌≡◌};
ghost use Rattle.model.specs.Rules.{broken, ◌then◌, file_verdict, ask_set};
ghost use Rattle.model.specs.Calls.{check_number, ranking, PlanMemory, plan_verdict, PlanCall, GreedyMemory, greedy_verdict, GreedyCall};
ghost use Rattle.model.specs.Report.{ReportMemory, report_verdict, ReportCall};
ghost use Rattle.model.specs.Hosts.{code_of, words_asked, record_place, rank_code, total_or_none, HostBillMemory, host_bill_verdict, HostBillCall, HostWithOrWithoutMemory, host_with_or_without_verdict, HostWithOrWithoutCall, HostLeastBudgetCall};
ghost use Rattle.tree_file.specs.Refusals.{verdict_of};
ghost use Rattle.one_site.specs.Answers.{least_of};

use compare::Ranking;
use fields::TreeFile;
use tree_file::{Refusal, Rule};
use units::Total;

// The rule's number is one byte of an answer, and the record stands above it.
const CODE_UNIT: u32 = 256;

// Stands for "none" among totals: the largest number of 64 bits, which no total reaches.
const NO_TOTAL: u64 = u64::MAX;

// The answer "none" of a call: a number that no rule has.
const NONE: u32 = 255;

// The answers "first" and "second": numbers that no rule has.
const FIRST: u32 = 253;

const SECOND: u32 = 254;

// A ruling as one number: record × 256 + number, 0 where no rule is broken.
fn code_of(ruling: Result<(), Refusal>) -> u32
    ensures { result ≡ code_of (verdict_of ruling) }
{
    match ruling {
        Ok(()) => 0,
        Err(refusal) => {
            let number = refusal.rule.number();
            u32::from(refusal.record) * CODE_UNIT + u32::from(number)
        }
    }
}

// 0, or the number of the first broken rule about the file.
pub fn kterc_check(file: &[u8]) -> u32
    ensures { result ≡ check_number file.now }
{
    tree_file::kterc_check(file)
}

// The words of scratch that rule 13 asks of an accepted file, 0 for a refused one.
pub fn kterc_scratch_words(file: &[u8]) -> usize
    ensures { result ≡ words_asked file.now }
{
    lent::words_asked(file)
}

// The place of a node's record in the file, counted in bytes from 0; 0 for none.
pub fn kterc_record(file: &[u8], node: usize) -> usize
    ensures { result ≡ record_place file.now node }
{
    tree_file::record_place(file, node)
}

// Which of two sets ranks first: FIRST, SECOND or the code of the refusal.
pub fn kterc_rank(file: &[u8], first: &[u16], second: &[u16]) -> u32
    ensures { result ≡ rank_code (ranking file.now first.now second.now) }
{
    match compare::rank(file, first, second) {
        Ok(Ranking::First) => FIRST,
        Ok(Ranking::Second) => SECOND,
        Err(refused) => code_of(Err(refused)),
    }
}

// The answer where there is no room for what is written: the refusal of the rules that were checked, else rule 14's.
fn no_room_after<T: Copy>(checked: Result<T, Refusal>) -> Result<(), Refusal>
    ensures { verdict_of result ≡ (verdict_of checked then broken 14 0) }
{
    checked?;
    Rule::Buffers.ask(false)
}

// The rules that a bill asks before rule 14: those about the file, then rule 12.
fn set_ruling(file: &[u8], set: &[u16]) -> Result<(), Refusal>
    ensures { verdict_of result ≡ (file_verdict file.now then ask_set file.now set.now) }
{
    tree_file::file_ruling(file)?;
    let file = TreeFile::of(file);
    Rule::Set.ask(placement::is_set(&file, file.count(), set))
}

// The bill, with its total as a buffer.
fn bill(
    file: &[u8],
    set: &[u16],
    total: &mut [u64],
    serving: &mut [u16],
    loads: &mut [u64],
) -> Result<(), Refusal>
    ensures { HostBillCall file.now set.now record { totals = total.old; servings = serving.old; loads = loads.old } (verdict_of result) record { totals = total.new; servings = serving.new; loads = loads.new } }
{
    if total.len() < 1 {
        return no_room_after(set_ruling(file, set));
    }
    let sum = placement::bill(file, set, serving, loads)?;
    total[0] = sum.0;
    Ok(())
}

// The bill of a set: its total in the first entry of `total`, then the serving node and the load above each node.
pub fn kterc_bill(
    file: &[u8],
    set: &[u16],
    total: &mut [u64],
    serving: &mut [u16],
    loads: &mut [u64],
) -> u32
    ensures value { result ≡ code_of (host_bill_verdict file.now set.now record { totals = total.old; servings = serving.old; loads = loads.old }) }
    ensures fact { (let lent : HostBillMemory = record { totals = total.old; servings = serving.old; loads = loads.old } in HostBillCall file.now set.now lent (host_bill_verdict file.now set.now lent) record { totals = total.new; servings = serving.new; loads = loads.new }) }
{
    code_of(bill(file, set, total, serving, loads))
}

// For each budget from 0 to k the least total and the nodes of the plan.
pub fn kterc_plan(file: &[u8], scratch: &mut [u64], totals: &mut [u64], rows: &mut [u16]) -> u32
    ensures value { result ≡ code_of (plan_verdict file.now record { scratch = scratch.entry.now; totals = totals.old; rows = rows.old }) }
    ensures fact { (let lent : PlanMemory = record { scratch = scratch.entry.now; totals = totals.old; rows = rows.old } in PlanCall file.now lent (plan_verdict file.now lent) record { scratch = scratch.exit.now; totals = totals.new; rows = rows.new }) }
{
    code_of(optimum::plan(file, scratch, totals, rows))
}

// For each budget from 0 to k the total that the greedy rule reaches, and the nodes in the order taken.
pub fn kterc_greedy(file: &[u8], scratch: &mut [u64], totals: &mut [u64], nodes: &mut [u16]) -> u32
    ensures value { result ≡ code_of (greedy_verdict file.now record { scratch = scratch.entry.now; totals = totals.old; nodes = nodes.old }) }
    ensures fact { (let lent : GreedyMemory = record { scratch = scratch.entry.now; totals = totals.old; nodes = nodes.old } in GreedyCall file.now lent (greedy_verdict file.now lent) record { scratch = scratch.exit.now; totals = totals.new; nodes = nodes.new }) }
{
    code_of(greedy::greedy(file, scratch, totals, nodes))
}

// Both answers together, with demand 3.
pub fn kterc_report(
    file: &[u8],
    scratch: &mut [u64],
    totals: &mut [u64],
    rows: &mut [u16],
    greedy_totals: &mut [u64],
    greedy_nodes: &mut [u16],
) -> u32
    ensures value { result ≡ code_of (report_verdict file.now record { scratch = scratch.entry.now; plan_totals = totals.old; plan_rows = rows.old; greedy_totals = greedy_totals.old; greedy_nodes = greedy_nodes.old }) }
    ensures fact { (let lent : ReportMemory = record { scratch = scratch.entry.now; plan_totals = totals.old; plan_rows = rows.old; greedy_totals = greedy_totals.old; greedy_nodes = greedy_nodes.old } in ReportCall file.now lent (report_verdict file.now lent) record { scratch = scratch.exit.now; plan_totals = totals.new; plan_rows = rows.new; greedy_totals = greedy_totals.new; greedy_nodes = greedy_nodes.new }) }
{
    code_of(report::report(file, scratch, totals, rows, greedy_totals, greedy_nodes))
}

// A least total as a host reads it.
fn total_or_none(least: Option<Total>) -> u64
    ensures { result ≡ total_or_none (least_of least) }
{
    least.map_or(NO_TOTAL, |total| total.0)
}

// The least totals with a node and without it, as a buffer.
fn with_without(
    file: &[u8],
    node: usize,
    budget: usize,
    scratch: &mut [u64],
    totals: &mut [u64],
) -> Result<(), Refusal>
    ensures { HostWithOrWithoutCall file.now node budget record { scratch = scratch.entry.now; totals = totals.old } (verdict_of result) record { scratch = scratch.exit.now; totals = totals.new } }
{
    if totals.len() < 2 {
        return no_room_after(one_site::check(file, node, budget, scratch.len()));
    }
    let leasts = one_site::with_or_without(file, node, budget, scratch)?;
    totals[0] = total_or_none(leasts.with);
    totals[1] = leasts.without.0;
    Ok(())
}

// The least total of all sets of at most `budget` nodes that contain the node, or NO_TOTAL, and the least of those that don't, in
// the first two entries of `totals`.
pub fn kterc_with_without(
    file: &[u8],
    node: usize,
    budget: usize,
    scratch: &mut [u64],
    totals: &mut [u64],
) -> u32
    ensures value { result ≡ code_of (host_with_or_without_verdict file.now node budget record { scratch = scratch.entry.now; totals = totals.old }) }
    ensures fact { (let lent : HostWithOrWithoutMemory = record { scratch = scratch.entry.now; totals = totals.old } in HostWithOrWithoutCall file.now node budget lent (host_with_or_without_verdict file.now node budget lent) record { scratch = scratch.exit.now; totals = totals.new }) }
{
    code_of(with_without(file, node, budget, scratch, totals))
}

// The least budget, at most k, whose plan total is no larger than the target, in the first entry of `budget`, and its set as one row of
// the plan in `row`; or NONE, which writes nothing.
pub fn kterc_target(
    file: &[u8],
    target: u64,
    scratch: &mut [u64],
    budget: &mut [u16],
    row: &mut [u16],
) -> u32
    ensures { HostLeastBudgetCall file.now target record { scratch = scratch.entry.now; budget = budget.old; row = row.old } result record { scratch = scratch.exit.now; budget = budget.new; row = row.new } }
{
    if budget.len() < 1 {
        return code_of(no_room_after(lent::check(file, scratch.len())));
    }
    match least_budget::from_target(file, Total(target), scratch, row) {
        Ok(Some(b)) => {
            budget[0] = b;
            0
        }
        Ok(None) => NONE,
        Err(refusal) => code_of(Err(refusal)),
    }
}
