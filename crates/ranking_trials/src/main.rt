// Sets the bill and the ranking against full enumeration: on thousands of trees of at most six nodes, of every version, with ties
// of every kind and with every pattern of closed nodes, it compares the bills of two sets and the rankings of many with a reference
// that shares no code with the planner, and sees that sets which are not the tree's are refused.
//
// It writes a line for each difference, and last how many trees or patterns of closed nodes and how many rankings it went through,
// how many rankings were of two sets with equal totals, and how many refusals by rule 12 there were.
#![tactic(auto)]

ghost use Rattle.std.specs.Prelude.{◌≤◌};

use compare::Ranking;
use small_plans::Bill;
use small_trees::{Nodes, SmallTree};
use std::io;
use std::io::Write;
use std::ops::Range;
use tree_file::{Refusal, Rule};
use tree_sequence::Case;
use units::Total;

// The refusal of a set that is not one of the tree's.
const NO_SET: Refusal = Refusal {
    rule: Rule::Set,
    record: 0,
};

// A set as a row of its nodes.
#[derive(Drop)]
struct Row {
    space: [u16; 6],
    size: usize,
    ghost size_within_space: { size ≤ 6 },
}

impl Row {
    fn of(set: Nodes) -> Row {
        let mut space = [0; 6];
        let size = set.write(&mut space);
        Row { space, size }
    }

    fn nodes(&self) -> &[u16] {
        &self.space[..self.size]
    }
}

// ---- the counts

// How many rankings were compared, how many of these were of two sets with equal totals, and how many refusals by rule 12 there
// were.
#[derive(Default, Drop)]
struct Count {
    rankings: u64,
    ties: u64,
    refusals: u64,
}

impl Count {
    // Two rankings more, of two sets whose totals are equal or not.
    fn add_rankings(&mut self, tied: bool) {
        self.rankings = self.rankings.wrapping_add(2);
        if tied {
            self.ties = self.ties.wrapping_add(2);
        }
    }

    // A wrong set more, with the refusals of a bill and of two rankings.
    fn add_refusals(&mut self) {
        self.refusals = self.refusals.wrapping_add(3);
    }
}

// ---- the bill of a set

// The total, and what the bill says of each node.
fn check_bill<W: Write>(out: &mut W, case: &Case, set: Nodes) -> io::Result<()> {
    let bill = Bill {
        tree: &case.tree,
        set,
    };
    let mut servings = [7u16; 6];
    let mut loads = [7u64; 6];
    let answer = placement::bill(case.file(), Row::of(set).nodes(), &mut servings, &mut loads);
    if answer != Ok(Total(bill.total())) {
        trial_text::print_difference(out, case.number, 0, b" bill's total")?;
    }
    if bill.loads_by_lengths() != bill.total() {
        trial_text::print_difference(out, case.number, 0, b" loads by lengths")?;
    }
    for v in 0..case.tree.nodes {
        if servings.get(v).copied().map(usize::from) != Some(bill.serving(v)) {
            trial_text::print_difference(out, case.number, v, b" serving node")?;
        }
        if loads.get(v).copied() != Some(bill.load(v)) {
            trial_text::print_difference(out, case.number, v, b" load")?;
        }
    }
    Ok(())
}

// A set that is not one of the tree's gets no bill, and the buffers stay as they were.
fn check_no_bill<W: Write>(out: &mut W, case: &Case, wrong: &[u16]) -> io::Result<()> {
    let mut servings = [7u16; 6];
    let mut loads = [7u64; 6];
    let mask = usize::from(Nodes::of_row(wrong).0);
    let answer = placement::bill(case.file(), wrong, &mut servings, &mut loads);
    if answer != Err(NO_SET) {
        trial_text::print_difference(out, case.number, mask, b" refusal of the bill")?;
    }
    if servings != [7; 6] {
        trial_text::print_difference(out, case.number, mask, b" serving node of a refusal")?;
    }
    if loads != [7; 6] {
        trial_text::print_difference(out, case.number, mask, b" load of a refusal")?;
    }
    Ok(())
}

// ---- the ranking of two sets

// The ranking of two sets, and the set handed back.
fn check_ranking<W: Write>(out: &mut W, case: &Case, one: Nodes, other: Nodes) -> io::Result<()> {
    let one_row = Row::of(one);
    let other_row = Row::of(other);
    let first = one_row.nodes();
    let second = other_row.nodes();
    let leads = small_plans::ranks_first(&case.tree, one, other);
    let (best, named) = if leads {
        (first, Ranking::First)
    } else {
        (second, Ranking::Second)
    };
    let mask = usize::from(Nodes::of_row(second).0);
    if compare::rank(case.file(), first, second) != Ok(named) {
        trial_text::print_difference(out, case.number, mask, b" ranking")?;
    }
    if compare::winner(case.file(), first, second) != best {
        trial_text::print_difference(out, case.number, mask, b" winner")?;
    }
    Ok(())
}

// Have two different sets equal totals?
fn are_tied(tree: &SmallTree, one: Nodes, other: Nodes) -> bool {
    one != other && (Bill { tree, set: one }).total() == (Bill { tree, set: other }).total()
}

// Every set of the tree's nodes against this one, both ways round.
fn check_rankings<W: Write>(
    out: &mut W,
    case: &Case,
    set: Nodes,
    count: &mut Count,
) -> io::Result<()> {
    for other in (0..64)
        .map(Nodes)
        .filter(|other| small_plans::is_choice(&case.tree, *other, 6))
    {
        check_ranking(out, case, set, other)?;
        check_ranking(out, case, other, set)?;
        count.add_rankings(are_tied(&case.tree, set, other));
    }
    Ok(())
}

// A set that is not one of the tree's has no bill and no rank, be it first or second, and nothing is handed back.
fn check_refusals<W: Write>(
    out: &mut W,
    case: &Case,
    set: &[u16],
    wrong: &[u16],
    count: &mut Count,
) -> io::Result<()> {
    let file = case.file();
    check_no_bill(out, case, wrong)?;
    if compare::rank(file, wrong, set) != Err(NO_SET) {
        trial_text::print_difference(out, case.number, 0, b" refusal of the first set")?;
    }
    if compare::rank(file, set, wrong) != Err(NO_SET) {
        trial_text::print_difference(out, case.number, 0, b" refusal of the second set")?;
    }
    if !compare::winner(file, wrong, set).is_empty() {
        trial_text::print_difference(out, case.number, 0, b" winner of a refusal")?;
    }
    count.add_refusals();
    Ok(())
}

// The server, and a node that the tree lacks, beside a set of the tree.
fn check_wrong_sets<W: Write>(
    out: &mut W,
    case: &Case,
    set: Nodes,
    count: &mut Count,
) -> io::Result<()> {
    let row = Row::of(set);
    let beyond = (case.tree.nodes % 65536) as u16;
    check_refusals(out, case, row.nodes(), &[0], count)?;
    check_refusals(out, case, row.nodes(), &[beyond], count)
}

// Each closed node, alone and with the nodes of a set, beside that set of the tree.
fn check_closed_nodes<W: Write>(
    out: &mut W,
    case: &Case,
    set: Nodes,
    count: &mut Count,
) -> io::Result<()> {
    let row = Row::of(set);
    for v in (1..case.tree.nodes.min(6)).filter(|v| !case.tree.record(*v).open) {
        check_refusals(
            out,
            case,
            row.nodes(),
            Row::of(Nodes::only(v)).nodes(),
            count,
        )?;
        check_refusals(out, case, row.nodes(), Row::of(set.with(v)).nodes(), count)?;
    }
    Ok(())
}

// ---- the trees

// The set that all others are ranked against: the plan's, or in each second dozen of trees one that changes from tree to tree,
// empty where the tree lacks a node of it.
fn ranked_set(case: &Case, plan: Nodes) -> Nodes {
    let set = Nodes((case.number / 24 % 32 * 2) as u8);
    if case.number / 12 % 2 == 0 {
        plan
    } else if small_plans::is_choice(&case.tree, set, 6) {
        set
    } else {
        Nodes::NONE
    }
}

fn check_tree<W: Write>(out: &mut W, case: &Case, count: &mut Count) -> io::Result<()> {
    let plan = small_plans::plan(&case.tree, case.tree.budget);
    check_bill(out, case, plan)?;
    check_bill(out, case, small_plans::greedy(&case.tree, case.tree.budget))?;
    check_wrong_sets(out, case, plan, count)?;
    check_closed_nodes(out, case, plan, count)?;
    check_rankings(out, case, ranked_set(case, plan), count)
}

// The trees of these numbers, with lines of how many there are and what was counted.
fn check_trees<W: Write>(out: &mut W, numbers: Range<u64>, what: &[u8]) -> io::Result<()> {
    let mut count = Count::default();
    let trees = tree_sequence::each_tree(numbers, |case| check_tree(out, case, &mut count))?;
    trial_text::print_count(out, what, trees)?;
    trial_text::print_count(out, b"rankings", count.rankings)?;
    trial_text::print_count(out, b"rankings of sets with equal totals", count.ties)?;
    trial_text::print_count(out, b"refusals by rule 12", count.refusals)
}

fn main(rt: HostRuntime) -> io::Result<()> {
    tree_sequence::check_parts(&rt, check_trees)
}
