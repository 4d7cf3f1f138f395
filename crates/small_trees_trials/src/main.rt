// Runs the reference for small trees: a tree to each line of standard input, and its answers on a line of standard output.
//
// `NAME nth I MASK` takes tree I of the sequence, `NAME file FILE MASK` the tree of a file. The answer is the name, the
// tree's file, the plan's total and set for each budget, the greedy rule's totals and nodes, the bill of the set that
// the mask says, for each set in order of masks how many rank before it, the words of scratch that are asked, and for each node
// and each budget the least totals with the node and without it.
#![tactic(auto)]

use small_plans::Bill;
use small_trees::{Nodes, SmallTree};
use std::io;
use std::io::Write;
use trial_text::{Case, FILE_ROOM};

fn print_file<W: Write>(out: &mut W, tree: &SmallTree) -> io::Result<()> {
    let mut space = [0u8; 87];
    let n = tree.write_file(&mut space);
    trial_text::print_bytes(out, &space[..n])
}

fn print_set<W: Write>(out: &mut W, set: Nodes) -> io::Result<()> {
    let mut space = [0u16; 5];
    let n = set.write(&mut space);
    trial_text::print_numbers(out, b"", &space[..n])
}

// ---- the plan and the greedy rule, at budgets up to the tree's

fn print_plans<W: Write>(out: &mut W, tree: &SmallTree) -> io::Result<()> {
    for b in 0..=tree.budget_within_six() {
        let set = small_plans::plan(tree, b);
        out.write_all(b" plan")?;
        trial_text::print_number(out, Bill { tree, set }.total())?;
        print_set(out, set)?;
    }
    Ok(())
}

// The greedy total after at most b steps, and the node that it takes next within the budget.
fn print_greedy<W: Write>(out: &mut W, tree: &SmallTree) -> io::Result<()> {
    out.write_all(b" greedy")?;
    for b in 0..=tree.budget_within_six() {
        let set = small_plans::greedy(tree, b);
        trial_text::print_number(out, Bill { tree, set }.total())?;
        if b < tree.budget {
            let taken = small_plans::greedy_node(tree, set).unwrap_or(0);
            trial_text::print_number(out, taken)?;
        }
    }
    Ok(())
}

// ---- the bill

// The total, by clients and by links, and every node's serving node and load.
fn print_bill<W: Write>(out: &mut W, bill: Bill) -> io::Result<()> {
    out.write_all(b" bill")?;
    trial_text::print_number(out, bill.total())?;
    trial_text::print_number(out, bill.loads_by_lengths())?;
    for v in 0..bill.tree.nodes.min(6) {
        trial_text::print_number(out, bill.serving(v))?;
        trial_text::print_number(out, bill.load(v))?;
    }
    Ok(())
}

// ---- ranking

// How many sets rank before this one.
fn rank_of(tree: &SmallTree, set: Nodes) -> usize {
    (0..64)
        .map(Nodes)
        .filter(|other| {
            small_plans::is_choice(tree, *other, 5) && !small_plans::ranks_first(tree, set, *other)
        })
        .count()
}

fn print_ranks<W: Write>(out: &mut W, tree: &SmallTree) -> io::Result<()> {
    out.write_all(b" ranks")?;
    for set in (0..64)
        .map(Nodes)
        .filter(|set| small_plans::is_choice(tree, *set, 5))
    {
        trial_text::print_number(out, rank_of(tree, set))?;
    }
    Ok(())
}

fn print_words<W: Write>(out: &mut W, tree: &SmallTree) -> io::Result<()> {
    out.write_all(b" words")?;
    trial_text::print_number(out, small_plans::scratch_words(tree))
}

// ---- with a node, or without it

fn print_least<W: Write>(out: &mut W, least: Option<u64>) -> io::Result<()> {
    match least {
        Some(total) => trial_text::print_number(out, total),
        None => out.write_all(b" none"),
    }
}

fn print_minima<W: Write>(out: &mut W, tree: &SmallTree) -> io::Result<()> {
    for v in 1..tree.nodes.min(6) {
        out.write_all(b" node")?;
        trial_text::print_number(out, v)?;
        for b in 0..=tree.budget_within_six() {
            print_least(out, small_plans::least_with(tree, v, b))?;
            print_least(out, small_plans::least_without(tree, v, b))?;
        }
    }
    Ok(())
}

// ---- cases

fn answer<W: Write>(out: &mut W, tree: &SmallTree, mask: u64) -> io::Result<()> {
    let set = Nodes((mask % 64) as u8);
    print_file(out, tree)?;
    print_plans(out, tree)?;
    print_greedy(out, tree)?;
    print_bill(out, Bill { tree, set })?;
    print_ranks(out, tree)?;
    print_words(out, tree)?;
    print_minima(out, tree)
}

fn tree_of(case: Case<'_>) -> SmallTree {
    match case.word(1) {
        b"nth" => tree_sequence::nth_tree(case.number(2)),
        _ => SmallTree::of_file(case.file(2, &mut [0u8; FILE_ROOM])),
    }
}

fn answer_case<W: Write>(out: &mut W, case: Case<'_>) -> io::Result<()> {
    trial_text::print_name(out, case)?;
    answer(out, &tree_of(case), case.number(3))?;
    trial_text::end_line(out)
}

fn main(rt: HostRuntime) -> io::Result<()> {
    trial_text::answer_cases(&rt, answer_case)
}
