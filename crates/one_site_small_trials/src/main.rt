// Sets the call for one node against full enumeration: on thousands of trees of at most six nodes, of every version, with ties of
// every kind and with every pattern of closed nodes, it compares the least totals with each node and without it, at each budget,
// with a reference that shares no code with the planner. It also compares them with the plan: the lesser of the two is the plan's
// total, the plan has the node only if the first is no larger than the second, and it has the node where the first is smaller. The
// scratch has just the words that rule 13 asks for; with one less the call is refused.
//
// It writes a line for each difference, and last how many trees or patterns of closed nodes and how many pairs of a node and a
// budget it went through; of these, how many have no set with the node, how many have two equal totals, and in how many the plan has
// the node; and how many refusals by rules 16 and 13 there were.
#![tactic(auto)]

ghost use Rattle.std.specs.Prelude.{◌≤◌};

use one_site::Leasts;
use small_trees::Nodes;
use std::io;
use std::io::Write;
use std::ops::Range;
use tree_file::{Refusal, Rule};
use tree_sequence::Case;

// ---- the two totals

// The least totals with a node and without it, each if there is such a set.
#[derive(Clone, Copy, Default)]
struct Both {
    with: Option<u64>,
    without: Option<u64>,
}

impl From<Leasts> for Both {
    fn from(leasts: Leasts) -> Both {
        Both {
            with: leasts.with.map(|total| total.0),
            without: Some(leasts.without.0),
        }
    }
}

// The answer with this scratch, and no totals where it is a refusal.
fn both_totals(case: &Case, v: usize, b: usize, scratch: &mut [u64]) -> Both {
    one_site::with_or_without(case.file(), v, b, scratch)
        .map(Both::from)
        .unwrap_or_default()
}

// Both totals against the reference.
fn check_least<W: Write>(
    out: &mut W,
    case: &Case,
    v: usize,
    b: usize,
    both: Both,
) -> io::Result<()> {
    if both.with != small_plans::least_with(&case.tree, v, b) {
        trial_text::print_difference(out, case.number, v, b" least total with the node")?;
    }
    if both.without != small_plans::least_without(&case.tree, v, b) {
        trial_text::print_difference(out, case.number, v, b" least total without the node")?;
    }
    Ok(())
}

// ---- beside the plan

// The buffers of the plan call.
#[derive(Drop)]
struct Plans {
    totals: [u64; 7],
    rows: [u16; 42],
}

// The plan at a budget.
#[derive(Clone, Copy)]
struct Plan {
    set: Nodes,
    total: Option<u64>,
}

impl Plans {
    fn at(&self, case: &Case, b: usize) -> Plan
        requires { b ≤ 6 }
    {
        Plan {
            set: Nodes::of_row(trial_buffers::row_of(&self.rows, b, case.budget)),
            total: self.totals.get(b).copied(),
        }
    }
}

// Is one total less than the other? No total is more than any.
fn is_less(one: Option<u64>, other: Option<u64>) -> bool {
    one.is_some_and(|one| other.is_none_or(|other| one < other))
}

fn check_beside_plan<W: Write>(
    out: &mut W,
    case: &Case,
    v: usize,
    both: Both,
    plan: Plan,
) -> io::Result<()> {
    let with_less = is_less(both.with, both.without);
    let lesser = if with_less { both.with } else { both.without };
    if lesser != plan.total {
        trial_text::print_difference(out, case.number, v, b" lesser total")?;
    }
    if plan.set.has(v) {
        if is_less(both.without, both.with) {
            trial_text::print_difference(
                out,
                case.number,
                v,
                b" larger total with a node of the plan",
            )?;
        }
    } else if with_less {
        trial_text::print_difference(
            out,
            case.number,
            v,
            b" smaller total with a node not of the plan",
        )?;
    }
    Ok(())
}

// ---- the counts

// How many pairs of a node and a budget were gone through, how many of these have no set with the node, how many have two equal
// totals, in how many the plan has the node, and how many refusals there were.
#[derive(Default, Drop)]
struct Count {
    pairs: u64,
    none: u64,
    ties: u64,
    members: u64,
    refusals: u64,
}

impl Count {
    // A pair more.
    fn add_pair(&mut self, both: Both, member: bool) {
        self.pairs = self.pairs.wrapping_add(1);
        self.none = self.none.wrapping_add(u64::from(both.with.is_none()));
        self.ties = self.ties.wrapping_add(u64::from(both.with == both.without));
        self.members = self.members.wrapping_add(u64::from(member));
    }

    // A refusal more.
    fn add_refusal(&mut self) {
        self.refusals = self.refusals.wrapping_add(1);
    }
}

// ---- each node at each budget

// Lends just the words of scratch that are asked, as the call before left them.
fn check_answers<W: Write>(out: &mut W, case: &Case, count: &mut Count) -> io::Result<()> {
    let words = small_plans::scratch_words(&case.tree);
    let mut scratch = [7u64; 300];
    let mut plans = Plans {
        totals: [7; 7],
        rows: [7; 42],
    };
    let _ = optimum::plan(
        case.file(),
        &mut scratch,
        &mut plans.totals,
        &mut plans.rows,
    );
    for b in 0..=case.budget {
        let plan = plans.at(case, b);
        for v in 1..case.tree.nodes {
            let both = both_totals(case, v, b, &mut scratch[..words]);
            check_least(out, case, v, b, both)?;
            check_beside_plan(out, case, v, both, plan)?;
            count.add_pair(both, plan.set.has(v));
        }
    }
    Ok(())
}

// ---- refusals, and the scratch beyond the words asked

// A refusal by this rule, which leaves the scratch as it was.
fn check_refusal<W: Write>(
    out: &mut W,
    case: &Case,
    v: usize,
    b: usize,
    scratch: &mut [u64],
    rule: Rule,
    count: &mut Count,
) -> io::Result<()> {
    let refusal = one_site::with_or_without(case.file(), v, b, scratch).err();
    if refusal != Some(Refusal { rule, record: 0 }) {
        trial_text::print_difference(out, case.number, v, b" refusal")?;
    }
    if !trial_buffers::all_from(scratch, 0, 7) {
        trial_text::print_difference(out, case.number, v, b" scratch of a refusal")?;
    }
    count.add_refusal();
    Ok(())
}

// The nodes next to those of the tree, one of them with no scratch: rule 16 comes before rule 13.
fn check_wrong_nodes<W: Write>(out: &mut W, case: &Case, count: &mut Count) -> io::Result<()> {
    let mut scratch = [7u64; 300];
    check_refusal(out, case, 0, 0, &mut scratch, Rule::Site, count)?;
    check_refusal(
        out,
        case,
        case.tree.nodes,
        0,
        &mut scratch,
        Rule::Site,
        count,
    )?;
    check_refusal(out, case, 0, 0, &mut scratch[..0], Rule::Site, count)
}

// The budget above the tree's, and one word less than is asked.
fn check_wrong_numbers<W: Write>(out: &mut W, case: &Case, count: &mut Count) -> io::Result<()> {
    let mut scratch = [7u64; 300];
    check_refusal(
        out,
        case,
        1,
        case.budget + 1,
        &mut scratch,
        Rule::Site,
        count,
    )?;
    match small_plans::scratch_words(&case.tree).checked_sub(1) {
        Some(words) => {
            check_refusal(
                out,
                case,
                1,
                case.budget,
                &mut scratch[..words],
                Rule::Scratch,
                count,
            )
        }
        None => Ok(()),
    }
}

// The words beyond those asked stay as they were.
fn check_beyond<W: Write>(out: &mut W, case: &Case) -> io::Result<()> {
    let k = case.budget;
    let mut scratch = [7u64; 300];
    let both = both_totals(case, 1, k, &mut scratch);
    check_least(out, case, 1, k, both)?;
    if !trial_buffers::all_from(&scratch, small_plans::scratch_words(&case.tree), 7) {
        trial_text::print_difference(out, case.number, k, b" scratch beyond")?;
    }
    Ok(())
}

fn check_borders<W: Write>(out: &mut W, case: &Case, count: &mut Count) -> io::Result<()> {
    check_wrong_nodes(out, case, count)?;
    if 2 <= case.tree.nodes {
        check_wrong_numbers(out, case, count)?;
        check_beyond(out, case)?;
    }
    Ok(())
}

// ---- the trees

fn check_tree<W: Write>(out: &mut W, case: &Case, count: &mut Count) -> io::Result<()> {
    check_borders(out, case, count)?;
    check_answers(out, case, count)
}

// The trees of these numbers, with lines of how many there are and what was counted.
fn check_trees<W: Write>(out: &mut W, numbers: Range<u64>, what: &[u8]) -> io::Result<()> {
    let mut count = Count::default();
    let trees = tree_sequence::each_tree(numbers, |case| check_tree(out, case, &mut count))?;
    trial_text::print_count(out, what, trees)?;
    trial_text::print_count(out, b"pairs of a node and a budget", count.pairs)?;
    trial_text::print_count(out, b"pairs with no set that has the node", count.none)?;
    trial_text::print_count(out, b"pairs with two equal totals", count.ties)?;
    trial_text::print_count(out, b"pairs whose plan has the node", count.members)?;
    trial_text::print_count(out, b"refusals by rules 16 and 13", count.refusals)
}

fn main(rt: HostRuntime) -> io::Result<()> {
    tree_sequence::check_parts(&rt, check_trees)
}
