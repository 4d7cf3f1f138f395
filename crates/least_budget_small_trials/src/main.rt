// Sets the call from a target to a budget against full enumeration: on thousands of trees of at most six nodes, of every version,
// with ties of every kind and with every pattern of closed nodes, it compares the budget and the row with a reference that shares
// no code with the planner. The targets are the total of the reference's plan at each budget, one less and one more, 0, and the
// largest number. The scratch and the row have just the words and entries that rules 13 and 14 ask for; with one less of either the
// call is refused and changes nothing, whether the target is within reach or not.
//
// It writes a line for each difference, and last how many trees or patterns of closed nodes and how many targets it went through;
// for how many of these there is no budget; and how many refusals by rules 13 and 14 there were.
#![tactic(auto)]

ghost use Rattle.std.specs.Prelude.{◌≤◌};

use small_trees::{Nodes, SmallTree};
use std::io;
use std::io::Write;
use std::ops::Range;
use tree_file::{Refusal, Rule};
use tree_sequence::Case;
use units::Total;

// ---- the reference

// The set and the total of a plan, by enumeration.
#[derive(Clone, Copy)]
struct Plan {
    set: Nodes,
    total: u64,
}

impl Plan {
    fn at(tree: &SmallTree, b: usize) -> Plan {
        let set = small_plans::plan(tree, b);
        Plan {
            set,
            total: (small_plans::Bill { tree, set }).total(),
        }
    }
}

// A case, with room for the plan at each budget up to 6.
#[derive(Drop)]
struct Trial<'a> {
    case: &'a Case,
    plans: [Plan; 7],
}

impl<'a> Trial<'a> {
    fn of(case: &'a Case) -> Trial<'a> {
        let mut plans = [Plan::at(&case.tree, 0); 7];
        for (b, plan) in plans[..=case.budget].iter_mut().enumerate() {
            *plan = Plan::at(&case.tree, b);
        }
        Trial { case, plans }
    }

    // The plan at each budget from 0 to the tree's.
    fn plans(&self) -> &[Plan] {
        &self.plans[..=self.case.budget]
    }
}

// ---- the answer

// The budget and the row against the reference. Each entry of the row was 7, which is no node.
fn check_answer<W: Write>(
    out: &mut W,
    trial: &Trial,
    target: u64,
    answer: Result<Option<u16>, Refusal>,
    row: &[u16],
) -> io::Result<()> {
    let number = trial.case.number;
    let k = trial.case.budget;
    let plans = trial.plans();
    let wanted = plans.iter().position(|plan| plan.total <= target);
    if answer.map(|found| found.map(usize::from)) != Ok(wanted) {
        trial_text::print_difference(out, number, wanted.unwrap_or(k), b" least budget")?;
    }
    match wanted {
        Some(b) => {
            if !plans[b].set.is_row(row, k) {
                trial_text::print_difference(out, number, b, b" row")?;
            }
        }
        None => {
            if !trial_buffers::all_from(row, 0, 7) {
                trial_text::print_difference(out, number, k, b" row of no budget")?;
            }
        }
    }
    Ok(())
}

// ---- the counts

// How many targets were gone through, for how many of these there is no budget, and how many refusals there were.
#[derive(Default, Drop)]
struct Count {
    targets: u64,
    none: u64,
    refusals: u64,
}

impl Count {
    // A target more, for which there is a budget or not.
    fn add_target(&mut self, has_budget: bool) {
        self.targets = self.targets.wrapping_add(1);
        if !has_budget {
            self.none = self.none.wrapping_add(1);
        }
    }

    // A refusal more.
    fn add_refusal(&mut self) {
        self.refusals = self.refusals.wrapping_add(1);
    }
}

// ---- each target

// One target, with these words and just the entries of the row that are asked.
fn check_target<W: Write>(
    out: &mut W,
    trial: &Trial,
    target: u64,
    scratch: &mut [u64],
    count: &mut Count,
) -> io::Result<()> {
    let mut space = [7u16; 6];
    let row = &mut space[..trial.case.budget];
    let answer = least_budget::from_target(trial.case.file(), Total(target), scratch, row);
    check_answer(out, trial, target, answer, row)?;
    count.add_target(answer != Ok(None));
    Ok(())
}

// The ends, and each plan's total, one less and one more. One less than 0 is 0. Lends just the words of scratch that are asked,
// as the call before left them.
fn check_targets<W: Write>(out: &mut W, trial: &Trial, count: &mut Count) -> io::Result<()> {
    let words = small_plans::scratch_words(&trial.case.tree);
    let mut scratch = [7u64; 300];
    for target in [0, u64::MAX] {
        check_target(out, trial, target, &mut scratch[..words], count)?;
    }
    for plan in trial.plans() {
        let total = plan.total;
        for target in [total, total.saturating_sub(1), total.wrapping_add(1)] {
            check_target(out, trial, target, &mut scratch[..words], count)?;
        }
    }
    Ok(())
}

// ---- refusals, and what lies beyond the words and entries asked

// Lends so many words and entries, with which the call is refused by this rule, and leaves the scratch and the row as they were.
fn check_refusal<W: Write>(
    out: &mut W,
    case: &Case,
    target: u64,
    words: usize,
    entries: usize,
    rule: Rule,
    count: &mut Count,
) -> io::Result<()>
    requires { (words ≤ 234) × (entries ≤ 6) }
{
    let mut scratch = [7u64; 300];
    let mut row = [7u16; 6];
    let answer = least_budget::from_target(
        case.file(),
        Total(target),
        &mut scratch[..words],
        &mut row[..entries],
    );
    let at = usize::from(rule.number());
    if answer != Err(Refusal { rule, record: 0 }) {
        trial_text::print_difference(out, case.number, at, b" refusal by the rule")?;
    }
    if !trial_buffers::all_from(&scratch, 0, 7) {
        trial_text::print_difference(out, case.number, at, b" scratch of a refusal")?;
    }
    if !trial_buffers::all_from(&row, 0, 7) {
        trial_text::print_difference(out, case.number, at, b" row of a refusal")?;
    }
    count.add_refusal();
    Ok(())
}

// One word less than is asked, one entry less, and both: rule 13 comes before rule 14.
fn check_short<W: Write>(
    out: &mut W,
    case: &Case,
    target: u64,
    count: &mut Count,
) -> io::Result<()> {
    let words = small_plans::scratch_words(&case.tree);
    let k = case.budget;
    if 0 < words {
        check_refusal(out, case, target, words - 1, k, Rule::Scratch, count)?;
        if 0 < k {
            check_refusal(out, case, target, words, k - 1, Rule::Buffers, count)?;
            check_refusal(out, case, target, words - 1, k - 1, Rule::Scratch, count)?;
        }
    }
    Ok(())
}

// The words and entries beyond those asked stay as they were.
fn check_beyond<W: Write>(out: &mut W, trial: &Trial, target: u64) -> io::Result<()> {
    let case = trial.case;
    let k = case.budget;
    let mut scratch = [7u64; 300];
    let mut row = [7u16; 9];
    let answer = least_budget::from_target(case.file(), Total(target), &mut scratch, &mut row);
    check_answer(out, trial, target, answer, &row)?;
    if !trial_buffers::all_from(&scratch, small_plans::scratch_words(&case.tree), 7) {
        trial_text::print_difference(out, case.number, k, b" scratch beyond")?;
    }
    if !trial_buffers::all_from(&row, k, 7) {
        trial_text::print_difference(out, case.number, k, b" row beyond")?;
    }
    Ok(())
}

// A target within reach, the plan's total at the tree's budget, and one out of reach, if there is one.
fn check_borders<W: Write>(out: &mut W, trial: &Trial, count: &mut Count) -> io::Result<()> {
    let least = trial.plans[trial.case.budget].total;
    check_beyond(out, trial, least)?;
    check_short(out, trial.case, least, count)?;
    if 0 < least {
        check_beyond(out, trial, least - 1)?;
        check_short(out, trial.case, least - 1, count)?;
    }
    Ok(())
}

// ---- the trees

fn check_tree<W: Write>(out: &mut W, case: &Case, count: &mut Count) -> io::Result<()> {
    let trial = Trial::of(case);
    check_borders(out, &trial, count)?;
    check_targets(out, &trial, count)
}

// The trees of these numbers, with lines of how many there are and what was counted.
fn check_trees<W: Write>(out: &mut W, numbers: Range<u64>, what: &[u8]) -> io::Result<()> {
    let mut count = Count::default();
    let trees = tree_sequence::each_tree(numbers, |case| check_tree(out, case, &mut count))?;
    trial_text::print_count(out, what, trees)?;
    trial_text::print_count(out, b"targets", count.targets)?;
    trial_text::print_count(out, b"targets with no budget", count.none)?;
    trial_text::print_count(out, b"refusals by rules 13 and 14", count.refusals)
}

fn main(rt: HostRuntime) -> io::Result<()> {
    tree_sequence::check_parts(&rt, check_trees)
}
