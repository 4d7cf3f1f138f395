// From a target to a budget: the least budget whose plan total is no larger than the target, and its row of the plan, from the plan's
// table.
#![tactic(auto)]

ghost use Rattle.std.specs.Prelude.{◌≡◌, ◌≤◌, length};
ghost use Rattle.laws.specs.Fronts.{FrontOnly};
ghost use Rattle.model.specs.File.{tree_of, budget_of};
ghost use Rattle.model.specs.Rules.{passed, scratch_words};
ghost use Rattle.model.specs.Calls.{after};
ghost use Rattle.model.specs.LeastBudget.{least_budget, row_written, LeastBudgetCall};
ghost use Rattle.best_rows.specs.Guarded.{may_be};
ghost use Rattle.lent.specs.Lent.{LentRoom};
ghost use Rattle.lines.specs.Line.{entry_of};
ghost use Rattle.table.specs.Table.{FullTable};
ghost use Rattle.least_budget.specs.Entries.{FirstNoLarger};
ghost use Rattle.least_budget.specs.Answers.{budget_or_none, budget_found};

use fields::{Tree, TreeFile};
use places::Place;
use table::Table;
use tree_file::{Refusal, Rule};
use units::Total;

// The index of the first of entries 0 to k of a line that is no larger than the target, none where each of them is larger.
fn first_no_larger(line: &[u64], k: usize, target: Total) -> Option<usize>
    ensures { FirstNoLarger (entry_of line.now) k target.0 result }
{
    (0..=k).find(|b| lines::entry(line, *b) <= target)
}

// Finds the least budget in the table, none where every plan costs more than the target, and writes its row. The plan there has just
// as many caches as the budget: one with fewer would already have been found at a smaller budget.
fn write_least(
    file: &TreeFile,
    k: usize,
    table: Table,
    row: &mut [u16],
    target: Total,
) -> Option<u16>
    requires k_value { k ≡ budget_of file.now }
    requires table { FullTable file.now (may_be (tree_of file.now)) table.places.now table.words.now }
    requires file_in_bounds { budget_of file.now ≤ length row.old }
    ensures result_value { budget_or_none result ≡ least_budget file.now target.0 }
    ensures row_after { row.new ≡ after passed (row_written file.now (least_budget file.now target.0)) row.old }
{
    let b = first_no_larger(table.server_line(), k, target)?;
    optimum::write_row(file, k, table, row, b, 0);
    Some(b as u16)
}

// Makes the plan's table, and finds the least budget in it.
fn find(
    file: &TreeFile,
    tree: Tree,
    target: Total,
    scratch: &mut [u64],
    row: &mut [u16],
) -> Option<u16>
    requires lent_room { LentRoom file.now tree scratch.old }
    requires file_in_bounds { budget_of file.now ≤ length row.old }
    ensures result_value { budget_or_none result ≡ least_budget file.now target.0 }
    ensures front_only { FrontOnly (scratch_words file.now) scratch.old scratch.new }
    ensures row_after { row.new ≡ after passed (row_written file.now (least_budget file.now target.0)) row.old }
{
    let mut places = [Place::NONE; Tree::NODES];
    optimum::plan_table(file, tree, scratch, &mut places);
    let table = Table {
        words: scratch,
        places: &places,
    };
    write_least(file, tree.budget, table, row, target)
}

// The least budget, at most k, whose plan total is no larger than the target, with its set in the first k entries of `row`; none
// and a refusal write nothing there.
pub fn from_target(
    file: &[u8],
    target: Total,
    scratch: &mut [u64],
    row: &mut [u16],
) -> Result<Option<u16>, Refusal>
    ensures { LeastBudgetCall file.now target.0 record { scratch = scratch.entry.now; row = row.old } (budget_found result) record { scratch = scratch.exit.now; row = row.new } }
{
    let tree = lent::check(file, scratch.len())?;
    // a match, so that what a row that is too short is answered stands by itself
    match Rule::Buffers.ask(tree.budget <= row.len()) {
        Ok(()) => Ok(find(&TreeFile::of(file), tree, target, scratch, row)),
        Err(refusal) => Err(refusal),
    }
}
