// The report: the plan's and the greedy rule's answers together, at every budget.
#![tactic(auto)]

ghost use Rattle.std.specs.Prelude.{◌≡◌, ◌&&◌, suc, ◌*◌, ◌≤◌, leb};
ghost use Rattle.model.specs.File.{most_budget};
ghost use Rattle.model.specs.Report.{ReportCall};
ghost use Rattle.tree_file.specs.Refusals.{verdict_of};
ghost use Rattle.report.specs.Written.{ReportRoom, ReportWritten};

use fields::{Tree, TreeFile};
use tree_file::{Refusal, Rule};

// Rule 14, of the plan's buffers and of the greedy rule's. The buffers stay apart, as a host in C hands them over.
fn buffers_long(
    k: usize,
    totals: usize,
    rows: usize,
    greedy_totals: usize,
    greedy_nodes: usize,
) -> bool
    requires { k ≤ most_budget }
    ensures { result ≡ ((leb (suc k) totals && leb (suc k * k) rows) && (leb (suc k) greedy_totals && leb k greedy_nodes)) }
{
    optimum::buffers_long(k, totals, rows) && greedy::buffers_long(k, greedy_totals, greedy_nodes)
}

// Both answers, one after the other in the same scratch.
fn make_report(
    file: &TreeFile,
    tree: Tree,
    scratch: &mut [u64],
    totals: &mut [u64],
    rows: &mut [u16],
    greedy_totals: &mut [u64],
    greedy_nodes: &mut [u16],
)
    requires { ReportRoom file.now tree record { scratch = scratch.now; plan_totals = totals.old; plan_rows = rows.old; greedy_totals = greedy_totals.old; greedy_nodes = greedy_nodes.old } }
    ensures { ReportWritten file.now record { scratch = scratch.entry.now; plan_totals = totals.old; plan_rows = rows.old; greedy_totals = greedy_totals.old; greedy_nodes = greedy_nodes.old } record { scratch = scratch.exit.now; plan_totals = totals.new; plan_rows = rows.new; greedy_totals = greedy_totals.new; greedy_nodes = greedy_nodes.new } }
{
    optimum::make_plan(file, tree, scratch, totals, rows);
    let Tree { nodes, budget, .. } = tree;
    greedy::run(file, nodes, budget, scratch, greedy_totals, greedy_nodes);
}

// At each budget from 0 to k: the plan's total and row of nodes, and the greedy rule's total; and the greedy rule's nodes.
// The rules about the file, 13 and 14; nothing is written before they all hold.
pub fn report(
    file: &[u8],
    scratch: &mut [u64],
    totals: &mut [u64],
    rows: &mut [u16],
    greedy_totals: &mut [u64],
    greedy_nodes: &mut [u16],
) -> Result<(), Refusal>
    ensures { ReportCall file.now record { scratch = scratch.entry.now; plan_totals = totals.old; plan_rows = rows.old; greedy_totals = greedy_totals.old; greedy_nodes = greedy_nodes.old } (verdict_of result) record { scratch = scratch.exit.now; plan_totals = totals.new; plan_rows = rows.new; greedy_totals = greedy_totals.new; greedy_nodes = greedy_nodes.new } }
{
    let tree = lent::check(file, scratch.len())?;
    Rule::Buffers.ask(buffers_long(
        tree.budget,
        totals.len(),
        rows.len(),
        greedy_totals.len(),
        greedy_nodes.len(),
    ))?;
    make_report(
        &TreeFile::of(file),
        tree,
        scratch,
        totals,
        rows,
        greedy_totals,
        greedy_nodes,
    );
    Ok(())
}
