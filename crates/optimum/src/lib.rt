// The plan: for each budget the caches of the least total, first in the order of ties, read back from the table.
#![tactic(auto)]

ghost use Rattle.std.specs.Prelude.{◌≡◌, ◌&&◌, suc, ◌+◌, ◌-◌, ◌*◌, ◌≤◌, leb, length, set};
ghost use Rattle.std.proofs.lemmas.List.Edits.{sets};
ghost use Rattle.laws.specs.Fronts.{FrontOnly};
ghost use Rattle.model.specs.File.{most_nodes, most_budget, budget_of, tree_of, demand_of};
ghost use Rattle.model.specs.Rules.{scratch_words};
ghost use Rattle.model.specs.Plan.{plan_total, row};
ghost use Rattle.model.specs.Calls.{plan_totals, plan_row, plan_rows, PlanCall};
ghost use Rattle.tree_file.specs.Refusals.{verdict_of};
ghost use Rattle.lent.specs.Lent.{LentRoom};
ghost use Rattle.best_rows.specs.Least.{better};
ghost use Rattle.best_rows.specs.Guarded.{may_be};
ghost use Rattle.best_rows.specs.TreeRows.{first_child};
ghost use Rattle.best_rows.specs.BestAt.{best_nodes, least_count, takes_node, later_at};
ghost use Rattle.node_words.specs.Words.{depth_word, word_of};
ghost use Rattle.lines.specs.Line.{entry_of};
ghost use Rattle.table.specs.Table.{FullTable};
ghost use Rattle.optimum.specs.Walk.{nodes_from, RowToSplit, RowToWalk, NodeToWalk};
ghost use Rattle.optimum.specs.Budgets.{Budget, Buffers};

use fields::{Tree, TreeFile};
use lines::NodeLines;
use places::Place;
use table::Table;
use tree_file::{Refusal, Rule};

// How the caches of a row split: how many are among the later siblings, and whether the first node is one of the others.
#[derive(Clone, Copy)]
struct Split {
    later: usize,
    member: bool,
}

// ---- the walk through the table

// How the m caches of the row that begins with x split, where `serving` is the serving node above it, at depth `above`.
fn split_of(
    file: &TreeFile,
    table: Table,
    x: usize,
    serving: usize,
    above: usize,
    m: usize,
) -> Split
    requires row_to_split { RowToSplit file.now (may_be (tree_of file.now)) table.places.now table.words.now x serving m }
    requires above_value { above ≡ word_of table.words.now serving depth_word }
    ensures later_value { result.later ≡ later_at (tree_of file.now) (demand_of file.now) (may_be (tree_of file.now)) x serving m }
    ensures member_value { result.member ≡ takes_node (tree_of file.now) (demand_of file.now) (may_be (tree_of file.now)) x serving (m - result.later) }
{
    let child = node_words::child_of(table.words, x);
    let cached = table.line(child, node_words::depth_word(table.words, x));
    let uncached = table.line(child, above);
    let sibling = node_words::sibling_of(table.words, x);
    let rest = table.line(sibling, above);
    let least = lines::entry(table.line(x, above), m);
    let part = file.cachable(x);
    let member = table::pays_itself(file, part, table.words, x);
    let other = table::pays(file, part, table.words, x, serving);
    let node = NodeLines {
        cached,
        uncached,
        member,
        other,
    };
    let later = node.later(rest, m, least);
    // with no caches at or below x it is none of them
    if m <= later {
        return Split {
            later,
            member: false,
        };
    }
    Split {
        later,
        member: node.takes(m - later),
    }
}

// Writes the n caches at or below x from `at` on, x being one of them if it is a member, and returns where they end.
#[cycle(walk_node_walk_row)]
fn walk_node(
    file: &TreeFile,
    table: Table,
    rows: &mut [u16],
    x: usize,
    serving: usize,
    n: usize,
    member: bool,
    at: usize,
) -> usize
    requires { NodeToWalk file.now (may_be (tree_of file.now)) table.places.now table.words.now x serving n member at rows.old }
    ensures value { result ≡ at + n }
    ensures rows_after { rows.new ≡ sets rows.old at (nodes_from (tree_of file.now) (demand_of file.now) (may_be (tree_of file.now)) x serving n) }
{
    let child = node_words::child_of(table.words, x);
    if member {
        rows[at] = x as u16;
        return walk_row(file, table, rows, child, x, n - 1, at + 1);
    }
    walk_row(file, table, rows, child, serving, n, at)
}

// Writes the `count` caches of the row that begins with `first` from `start` on, and returns where they end.
#[cycle(walk_node_walk_row)]
fn walk_row(
    file: &TreeFile,
    table: Table,
    rows: &mut [u16],
    first: usize,
    serving: usize,
    count: usize,
    start: usize,
) -> usize
    requires { RowToWalk file.now (may_be (tree_of file.now)) table.places.now table.words.now first serving count start rows.old }
    ensures value { result ≡ start + count }
    ensures rows_after { rows.new ≡ sets rows.old start (best_nodes (tree_of file.now) (demand_of file.now) (may_be (tree_of file.now)) first serving count) }
{
    let above = node_words::depth_word(table.words, serving);
    let mut x = first;
    let mut m = count;
    let mut at = start;
    // goes from sibling to sibling until no cache is left; the siblings are no range
    while 0 < m {
        let split = split_of(file, table, x, serving, above, m);
        let later = split.later;
        if later < m {
            at = walk_node(file, table, rows, x, serving, m - later, split.member, at);
            m = later;
        }
        x = node_words::sibling_of(table.words, x);
    }
    at
}

// ---- the plan, budget by budget

// The better of two numbers of caches by the entries of a line: `last`, unless `next` costs less.
fn better_count(line: &[u64], last: usize, next: usize) -> usize
    ensures { result ≡ better (entry_of line.now) last next }
{
    if lines::entry(line, next).is_less(lines::entry(line, last)) {
        next
    } else {
        last
    }
}

// Writes a row of the answer from `at` on: the m caches of the server's row, then zeros.
pub fn write_row(file: &TreeFile, k: usize, table: Table, rows: &mut [u16], m: usize, at: usize)
    requires k_value { k ≡ budget_of file.now }
    requires row_to_walk { RowToWalk file.now (may_be (tree_of file.now)) table.places.now table.words.now (first_child (tree_of file.now) 0) 0 m at rows.old }
    requires k_in_bounds { at + k ≤ length rows.old }
    ensures { rows.new ≡ sets rows.old at (row k (best_nodes (tree_of file.now) (demand_of file.now) (may_be (tree_of file.now)) (first_child (tree_of file.now) 0) 0 m)) }
{
    let end = walk_row(
        file,
        table,
        rows,
        node_words::child_of(table.words, 0),
        0,
        m,
        at,
    );
    rows[end..at + k].fill(0);
}

// Writes the total and the row of budget b, and returns how many caches it has; `last` is how many the budget before has.
fn write_budget(
    file: &TreeFile,
    k: usize,
    table: Table,
    totals: &mut [u64],
    rows: &mut [u16],
    b: usize,
    last: usize,
) -> usize
    requires budget { Budget file.now k table.places.now table.words.now b last }
    requires buffers { Buffers file.now totals.old rows.old }
    ensures value { result ≡ least_count (tree_of file.now) (demand_of file.now) (may_be (tree_of file.now)) b }
    ensures totals_after { totals.new ≡ set totals.old b (plan_total (tree_of file.now) (demand_of file.now) b) }
    ensures rows_after { rows.new ≡ sets rows.old (b * k) (plan_row file.now b) }
{
    let line = table.server_line();
    let count = better_count(line, last, b);
    totals[b] = lines::entry(line, count).0;
    write_row(file, k, table, rows, count, b * k);
    count
}

// Writes every budget.
fn write_plan(file: &TreeFile, k: usize, table: Table, totals: &mut [u64], rows: &mut [u16])
    requires k_value { k ≡ budget_of file.now }
    requires table { FullTable file.now (may_be (tree_of file.now)) table.places.now table.words.now }
    requires buffers { Buffers file.now totals.old rows.old }
    ensures totals_after { totals.new ≡ sets totals.old 0 (plan_totals file.now) }
    ensures rows_after { rows.new ≡ sets rows.old 0 (plan_rows file.now) }
{
    let mut count = 0;
    for b in 0..k + 1 {
        count = write_budget(file, k, table, totals, rows, b, count);
    }
}

// Notes where the lines stand, and fills the plan's table in the scratch.
pub fn plan_table(file: &TreeFile, tree: Tree, scratch: &mut [u64], places: &mut [Place])
    requires lent_room { LentRoom file.now tree scratch.old }
    requires most_nodes_in_bounds { most_nodes ≤ length places.old }
    ensures table { FullTable file.now (may_be (tree_of file.now)) places.new scratch.new }
    ensures front_only { FrontOnly (scratch_words file.now) scratch.old scratch.new }
{
    places::note_places(file, tree, places);
    table::make_table(file, scratch, places, None);
}

// Makes the table, and writes the plan from it.
pub fn make_plan(
    file: &TreeFile,
    tree: Tree,
    scratch: &mut [u64],
    totals: &mut [u64],
    rows: &mut [u16],
)
    requires lent_room { LentRoom file.now tree scratch.old }
    requires buffers { Buffers file.now totals.old rows.old }
    ensures front_only { FrontOnly (scratch_words file.now) scratch.old scratch.new }
    ensures totals_after { totals.new ≡ sets totals.old 0 (plan_totals file.now) }
    ensures rows_after { rows.new ≡ sets rows.old 0 (plan_rows file.now) }
{
    let mut places = [Place::NONE; Tree::NODES];
    plan_table(file, tree, scratch, &mut places);
    let table = Table {
        words: scratch,
        places: &places,
    };
    write_plan(file, tree.budget, table, totals, rows);
}

// ---- the call

// Rule 14: k + 1 totals, and k + 1 rows of k numbers.
pub fn buffers_long(k: usize, totals: usize, rows: usize) -> bool
    requires { k ≤ most_budget }
    ensures { result ≡ (leb (suc k) totals && leb (suc k * k) rows) }
{
    if totals < k + 1 {
        return false;
    }
    (k + 1) * k <= rows
}

// For each budget from 0 to k the least total and the nodes of the plan; a refusal writes nothing.
pub fn plan(
    file: &[u8],
    scratch: &mut [u64],
    totals: &mut [u64],
    rows: &mut [u16],
) -> Result<(), Refusal>
    ensures { PlanCall file.now record { scratch = scratch.entry.now; totals = totals.old; rows = rows.old } (verdict_of result) record { scratch = scratch.exit.now; totals = totals.new; rows = rows.new } }
{
    let tree = lent::check(file, scratch.len())?;
    Rule::Buffers.ask(buffers_long(tree.budget, totals.len(), rows.len()))?;
    make_plan(&TreeFile::of(file), tree, scratch, totals, rows);
    Ok(())
}
