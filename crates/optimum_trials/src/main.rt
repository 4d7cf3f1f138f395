// Sets the planner against full enumeration: on thousands of trees of at most six nodes, of every version, with ties of every kind
// and with every pattern of closed nodes, it compares what the report holds at each budget with a reference that shares no code with
// the planner, and the report's buffers with those of the plan call and of the greedy call. The report has just the words of scratch
// that rule 13 asks for; with one less each call is refused.
//
// It writes a line for each difference, and last how many trees and how many patterns of closed nodes it went through.
#![tactic(auto)]

ghost use Rattle.std.specs.Prelude.{◌≤◌};

use small_plans::Bill;
use small_trees::Nodes;
use std::io;
use std::io::Write;
use std::ops::Range;
use tree_file::{Refusal, Rule};
use tree_sequence::Case;

// What a call answers that has too little scratch.
const SHORT: Result<(), Refusal> = Err(Refusal {
    rule: Rule::Scratch,
    record: 0,
});

// What the plan or the greedy rule answers: its totals, and its rows or nodes.
#[derive(Drop)]
struct Answers<const N: usize> {
    totals: [u64; 8],
    nodes: [u16; N],
}

impl<const N: usize> Answers<N> {
    // Room for at least one entry more than is written of each, all of them 7: no total, and no node.
    fn room() -> Self {
        Answers {
            totals: [7; 8],
            nodes: [7; N],
        }
    }
}

// The buffers of a report.
#[derive(Drop)]
struct Report {
    plan: Answers<43>,
    greedy: Answers<7>,
}

impl Report {
    fn room() -> Report {
        Report {
            plan: Answers::room(),
            greedy: Answers::room(),
        }
    }

    // The report of this file with this scratch.
    fn make(&mut self, file: &[u8], scratch: &mut [u64]) -> Result<(), Refusal> {
        report::report(
            file,
            scratch,
            &mut self.plan.totals,
            &mut self.plan.nodes,
            &mut self.greedy.totals,
            &mut self.greedy.nodes,
        )
    }
}

// ---- the report at each budget

// The plan's set and total at b, and the loads times lengths of the set that the row holds.
fn check_plan<W: Write>(out: &mut W, case: &Case, b: usize, plan: &Answers<43>) -> io::Result<()>
    requires { b ≤ 6 }
{
    let tree = &case.tree;
    let set = small_plans::plan(tree, b);
    let row = trial_buffers::row_of(&plan.nodes, b, case.budget);
    let total = plan.totals.get(b).copied();
    if total != Some((Bill { tree, set }).total()) {
        trial_text::print_difference(out, case.number, b, b" plan's total")?;
    }
    if !set.is_row(row, case.budget) {
        trial_text::print_difference(out, case.number, b, b" plan's set")?;
    }
    let of_row = Bill {
        tree,
        set: Nodes::of_row(row),
    };
    if total != Some(of_row.loads_by_lengths()) {
        trial_text::print_difference(out, case.number, b, b" loads by lengths of the row")?;
    }
    Ok(())
}

// The greedy rule's total at b, and the node that it takes there.
fn check_step<W: Write>(out: &mut W, case: &Case, b: usize, greedy: &Answers<7>) -> io::Result<()> {
    let tree = &case.tree;
    let set = small_plans::greedy(tree, b);
    if greedy.totals.get(b).copied() != Some((Bill { tree, set }).total()) {
        trial_text::print_difference(out, case.number, b, b" greedy total")?;
    }
    if b < case.budget {
        let taken = small_plans::greedy_node(tree, set).unwrap_or(0);
        if greedy.nodes.get(b).copied().map(usize::from) != Some(taken) {
            trial_text::print_difference(out, case.number, b, b" greedy node")?;
        }
    }
    Ok(())
}

// What the report holds at each budget from 0 to the tree's.
fn check_budgets<W: Write>(out: &mut W, case: &Case, report: &Report) -> io::Result<()> {
    for b in 0..=case.budget {
        check_plan(out, case, b, &report.plan)?;
        check_step(out, case, b, &report.greedy)?;
    }
    Ok(())
}

// ---- the report's buffers beyond the entries written, and beside those of the plan and of the greedy rule

// The entries that the report does not write.
fn check_beyond<W: Write>(out: &mut W, case: &Case, report: &Report) -> io::Result<()> {
    let k = case.budget;
    if !trial_buffers::all_from(&report.plan.totals, k + 1, 7) {
        trial_text::print_difference(out, case.number, k, b" total beyond")?;
    }
    if !trial_buffers::all_from(&report.plan.nodes, trial_buffers::row_at(k + 1, k), 7) {
        trial_text::print_difference(out, case.number, k, b" row beyond")?;
    }
    if !trial_buffers::all_from(&report.greedy.totals, k + 1, 7) {
        trial_text::print_difference(out, case.number, k, b" greedy total beyond")?;
    }
    if !trial_buffers::all_from(&report.greedy.nodes, k, 7) {
        trial_text::print_difference(out, case.number, k, b" greedy node beyond")?;
    }
    Ok(())
}

// What differs between a report and a call of its own.
#[derive(Drop)]
struct Differences {
    ruling: &'static [u8],
    total: &'static [u8],
    node: &'static [u8],
    scratch: &'static [u8],
}

// Does a call leave the same in its buffers as the report, and the scratch beyond the words asked as it was?
fn check_call<W: Write, const N: usize, F>(
    out: &mut W,
    case: &Case,
    reported: &Answers<N>,
    what: Differences,
    call: F,
) -> io::Result<()>
where
    F: FnOnce(&mut [u64], &mut [u64], &mut [u16]) -> Result<(), Refusal>,
    requires { F.IsAlwaysCallable call }
{
    let words = small_plans::scratch_words(&case.tree);
    let mut scratch = [7u64; 300];
    let mut own = Answers::<N>::room();
    if call(&mut scratch, &mut own.totals, &mut own.nodes).is_err() {
        trial_text::print_difference(out, case.number, 0, what.ruling)?;
    }
    if own.totals != reported.totals {
        trial_text::print_difference(out, case.number, 0, what.total)?;
    }
    if own.nodes != reported.nodes {
        trial_text::print_difference(out, case.number, 0, what.node)?;
    }
    if !trial_buffers::all_from(&scratch, words, 7) {
        trial_text::print_difference(out, case.number, words, what.scratch)?;
    }
    Ok(())
}

fn check_calls<W: Write>(out: &mut W, case: &Case, report: &Report) -> io::Result<()> {
    let of_plan = Differences {
        ruling: b" plan's ruling",
        total: b" plan call's total",
        node: b" plan call's row",
        scratch: b" scratch beyond the plan call's",
    };
    check_call(out, case, &report.plan, of_plan, |scratch, totals, rows| {
        optimum::plan(case.file(), scratch, totals, rows)
    })?;
    let of_greedy = Differences {
        ruling: b" greedy ruling",
        total: b" greedy call's total",
        node: b" greedy call's node",
        scratch: b" scratch beyond the greedy call's",
    };
    check_call(
        out,
        case,
        &report.greedy,
        of_greedy,
        |scratch, totals, nodes| { greedy::greedy(case.file(), scratch, totals, nodes) },
    )
}

// Each call with this scratch, which has a word less than is asked.
fn check_short<W: Write>(out: &mut W, case: &Case, scratch: &mut [u64]) -> io::Result<()> {
    let file = case.file();
    let mut report = Report::room();
    let plan = &mut report.plan;
    if optimum::plan(file, scratch, &mut plan.totals, &mut plan.nodes) != SHORT {
        trial_text::print_difference(out, case.number, 0, b" plan's refusal by rule 13")?;
    }
    let greedy = &mut report.greedy;
    if greedy::greedy(file, scratch, &mut greedy.totals, &mut greedy.nodes) != SHORT {
        trial_text::print_difference(out, case.number, 0, b" greedy rule's refusal by rule 13")?;
    }
    if report.make(file, scratch) != SHORT {
        trial_text::print_difference(out, case.number, 0, b" report's refusal by rule 13")?;
    }
    Ok(())
}

// One word less than is asked.
fn check_boundary<W: Write>(out: &mut W, case: &Case) -> io::Result<()> {
    let mut scratch = [7u64; 300];
    match small_plans::scratch_words(&case.tree).checked_sub(1) {
        Some(words) => check_short(out, case, &mut scratch[..words]),
        None => Ok(()),
    }
}

// Lends just the words of scratch that are asked.
fn check_report<W: Write>(out: &mut W, case: &Case) -> io::Result<()> {
    let words = small_plans::scratch_words(&case.tree);
    let mut scratch = [7u64; 300];
    let mut report = Report::room();
    if report.make(case.file(), &mut scratch[..words]).is_err() {
        trial_text::print_difference(out, case.number, 0, b" report's ruling")?;
    }
    check_budgets(out, case, &report)?;
    check_beyond(out, case, &report)?;
    check_calls(out, case, &report)?;
    check_boundary(out, case)
}

// ---- the trees

// The trees of these numbers, with a line of how many there are.
fn check_trees<W: Write>(out: &mut W, numbers: Range<u64>, what: &[u8]) -> io::Result<()> {
    let trees = tree_sequence::each_tree(numbers, |case| check_report(out, case))?;
    trial_text::print_count(out, what, trees)
}

fn main(rt: HostRuntime) -> io::Result<()> {
    tree_sequence::check_parts(&rt, check_trees)
}
