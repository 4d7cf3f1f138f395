// The exports for hosts in C, as include/kterc.h declares them: each slice is a pointer and a length. Each calls the function of its name in kterc_c.
// They repeat the ten calls since C needs a static library, and the tests of the calls need a library: a crate is one or the other.
#![tactic(auto)]

ghost use Rattle.std.specs.Prelude.{◌≡◌};
ghost use Rattle.model.specs.Calls.{check_number, ranking, PlanMemory, plan_verdict, PlanCall, GreedyMemory, greedy_verdict, GreedyCall};
ghost use Rattle.model.specs.Report.{ReportMemory, report_verdict, ReportCall};
ghost use Rattle.model.specs.Hosts.{code_of, words_asked, record_place, rank_code, HostBillMemory, host_bill_verdict, HostBillCall, HostWithOrWithoutMemory, host_with_or_without_verdict, HostWithOrWithoutCall, HostLeastBudgetCall};

// 0, or the number of the first broken rule about the file.
#[unsafe(no_mangle)]
pub extern "C" fn kterc_check(file: &[u8]) -> u32
    ensures { result ≡ check_number file.now }
{
    kterc_c::kterc_check(file)
}

// The words of scratch that rule 13 asks of an accepted file, 0 for a refused one.
#[unsafe(no_mangle)]
pub extern "C" fn kterc_scratch_words(file: &[u8]) -> usize
    ensures { result ≡ words_asked file.now }
{
    kterc_c::kterc_scratch_words(file)
}

// The place of a node's record in the file, counted in bytes from 0; 0 for none.
#[unsafe(no_mangle)]
pub extern "C" fn kterc_record(file: &[u8], node: usize) -> usize
    ensures { result ≡ record_place file.now node }
{
    kterc_c::kterc_record(file, node)
}

// Which of two sets ranks first: FIRST, SECOND or the code of the refusal.
#[unsafe(no_mangle)]
pub extern "C" fn kterc_rank(file: &[u8], first: &[u16], second: &[u16]) -> u32
    ensures { result ≡ rank_code (ranking file.now first.now second.now) }
{
    kterc_c::kterc_rank(file, first, second)
}

// The bill of a set: its total in the first entry of `total`, then the serving node and the load above each node.
#[unsafe(no_mangle)]
pub extern "C" fn kterc_bill(
    file: &[u8],
    set: &[u16],
    total: &mut [u64],
    serving: &mut [u16],
    loads: &mut [u64],
) -> u32
    ensures value { result ≡ code_of (host_bill_verdict file.now set.now record { totals = total.old; servings = serving.old; loads = loads.old }) }
    ensures fact { (let lent : HostBillMemory = record { totals = total.old; servings = serving.old; loads = loads.old } in HostBillCall file.now set.now lent (host_bill_verdict file.now set.now lent) record { totals = total.new; servings = serving.new; loads = loads.new }) }
{
    kterc_c::kterc_bill(file, set, total, serving, loads)
}

// For each budget from 0 to k the least total and the nodes of the plan.
#[unsafe(no_mangle)]
pub extern "C" fn kterc_plan(
    file: &[u8],
    scratch: &mut [u64],
    totals: &mut [u64],
    rows: &mut [u16],
) -> u32
    ensures value { result ≡ code_of (plan_verdict file.now record { scratch = scratch.entry.now; totals = totals.old; rows = rows.old }) }
    ensures fact { (let lent : PlanMemory = record { scratch = scratch.entry.now; totals = totals.old; rows = rows.old } in PlanCall file.now lent (plan_verdict file.now lent) record { scratch = scratch.exit.now; totals = totals.new; rows = rows.new }) }
{
    kterc_c::kterc_plan(file, scratch, totals, rows)
}

// For each budget from 0 to k the total that the greedy rule reaches, and the nodes in the order taken.
#[unsafe(no_mangle)]
pub extern "C" fn kterc_greedy(
    file: &[u8],
    scratch: &mut [u64],
    totals: &mut [u64],
    nodes: &mut [u16],
) -> u32
    ensures value { result ≡ code_of (greedy_verdict file.now record { scratch = scratch.entry.now; totals = totals.old; nodes = nodes.old }) }
    ensures fact { (let lent : GreedyMemory = record { scratch = scratch.entry.now; totals = totals.old; nodes = nodes.old } in GreedyCall file.now lent (greedy_verdict file.now lent) record { scratch = scratch.exit.now; totals = totals.new; nodes = nodes.new }) }
{
    kterc_c::kterc_greedy(file, scratch, totals, nodes)
}

// Both answers together, with demand 3.
#[unsafe(no_mangle)]
pub extern "C" fn kterc_report(
    file: &[u8],
    scratch: &mut [u64],
    totals: &mut [u64],
    rows: &mut [u16],
    greedy_totals: &mut [u64],
    greedy_nodes: &mut [u16],
) -> u32
    ensures value { result ≡ code_of (report_verdict file.now record { scratch = scratch.entry.now; plan_totals = totals.old; plan_rows = rows.old; greedy_totals = greedy_totals.old; greedy_nodes = greedy_nodes.old }) }
    ensures fact { (let lent : ReportMemory = record { scratch = scratch.entry.now; plan_totals = totals.old; plan_rows = rows.old; greedy_totals = greedy_totals.old; greedy_nodes = greedy_nodes.old } in ReportCall file.now lent (report_verdict file.now lent) record { scratch = scratch.exit.now; plan_totals = totals.new; plan_rows = rows.new; greedy_totals = greedy_totals.new; greedy_nodes = greedy_nodes.new }) }
{
    kterc_c::kterc_report(file, scratch, totals, rows, greedy_totals, greedy_nodes)
}

// The least total of all sets of at most `budget` nodes that contain the node, or NO_TOTAL, and the least of those that don't, in
// the first two entries of `totals`.
#[unsafe(no_mangle)]
pub extern "C" fn kterc_with_without(
    file: &[u8],
    node: usize,
    budget: usize,
    scratch: &mut [u64],
    totals: &mut [u64],
) -> u32
    ensures value { result ≡ code_of (host_with_or_without_verdict file.now node budget record { scratch = scratch.entry.now; totals = totals.old }) }
    ensures fact { (let lent : HostWithOrWithoutMemory = record { scratch = scratch.entry.now; totals = totals.old } in HostWithOrWithoutCall file.now node budget lent (host_with_or_without_verdict file.now node budget lent) record { scratch = scratch.exit.now; totals = totals.new }) }
{
    kterc_c::kterc_with_without(file, node, budget, scratch, totals)
}

// The least budget, at most k, whose plan total is no larger than the target, in the first entry of `budget`, and its set as one row of
// the plan in `row`; or NONE, which writes nothing.
#[unsafe(no_mangle)]
pub extern "C" fn kterc_target(
    file: &[u8],
    target: u64,
    scratch: &mut [u64],
    budget: &mut [u16],
    row: &mut [u16],
) -> u32
    ensures { HostLeastBudgetCall file.now target record { scratch = scratch.entry.now; budget = budget.old; row = row.old } result record { scratch = scratch.exit.now; budget = budget.new; row = row.new } }
{
    kterc_c::kterc_target(file, target, scratch, budget, row)
}
