// The bill of a set: its total, the serving node of each node and the load on each link.
#![tactic(auto)]

ghost use Rattle.std.specs.Prelude.{◌≡◌, List, ℕ, true, ◌+◌, ◌≤◌, ◌<◌, ◌^◌, length};
ghost use Rattle.std.proofs.lemmas.List.Edits.{sets};
ghost use Rattle.laws.specs.Lists.{has};
ghost use Rattle.model.specs.File.{tree_of, demand_of};
ghost use Rattle.model.specs.Rules.{ascends, is_set};
ghost use Rattle.model.specs.Bill.{total, total_limit};
ghost use Rattle.model.specs.Calls.{BillCall, serving_nodes};
ghost use Rattle.placement.specs.Passes.{members_from, self_serving, total_before, AcceptedFile, Billable, Walkable};
ghost use Rattle.placement.specs.Answers.{bill_answer, BillWritten};
ghost use Rattle.placement.specs.Walks.{Begins, NodeWalked, RowWalked, Bounded, Raised};

use fields::{Tree, TreeFile};
use tree_file::{Refusal, Rule};
use units::{Flow, Total};

// Nodes that were walked: the node after the last of them, the load above them, and what the clients at or below them
// send once a cache has served them.
#[derive(Clone, Copy)]
struct Walk {
    end: usize,
    load: Flow,
    relief: Flow,
}

// ---- members of a set

// Do the members ascend, each from 1 to n − 1? It ends at the first that does not, so that no set takes more than n turns, however
// long it is.
fn ascending(set: &[u16], n: usize) -> bool
    ensures { result ≡ ascends 0 n set.now }
{
    let mut last = 0;
    for member in set {
        let v = usize::from(*member);
        if v <= last {
            return false;
        }
        if n <= v {
            return false;
        }
        last = v;
    }
    true
}

// Rule 12.
pub fn is_set(file: &TreeFile, n: usize, set: &[u16]) -> bool
    requires { AcceptedFile file.now n }
    ensures { result ≡ is_set (tree_of file.now) set.now }
{
    ascending(set, n) && set.iter().all(|v| file.is_open(usize::from(*v)))
}

// Takes site v off the members that are left, those from v on: is it one of them?
pub fn take_member(left: &mut &[u16], v: usize) -> bool
    ensures { (n : ℕ) (set : List ℕ) → ascends 0 n set ≡ true → left.old.now ≡ members_from set v → (result ≡ has set v) × (left.new.now ≡ members_from set (v + 1)) }
{
    let Some((first, rest)) = left.split_first() else {
        return false;
    };
    if usize::from(*first) != v {
        return false;
    }
    *left = rest;
    true
}

// ---- serving nodes

// A member serves itself; another node has the serving node of its parent.
fn write_servings(file: &TreeFile, n: usize, set: &[u16], servings: &mut [u16])
    requires billable { Billable file.now n set.now }
    requires n_in_bounds { n ≤ length servings.old }
    ensures { servings.new ≡ sets servings.old 0 (serving_nodes file.now set.now) }
{
    servings[0] = 0;
    let mut left = set;
    for v in 1..n {
        let above = servings[file.parent(v)];
        servings[v] = if take_member(&mut left, v) {
            v as u16
        } else {
            above
        };
    }
}

// ---- link loads

fn joined(first: Walk, rest: Walk) -> Walk
    requires { (first.load.0 + rest.load.0 < 2 ^ 64) × (first.relief.0 + rest.relief.0 < 2 ^ 64) }
    ensures { (result.end ≡ rest.end) × (result.load.0 ≡ first.load.0 + rest.load.0) × (result.relief.0 ≡ first.relief.0 + rest.relief.0) }
{
    Walk {
        end: rest.end,
        load: first.load + rest.load,
        relief: first.relief + rest.relief,
    }
}

// What the walks read: an accepted file, how many nodes it has, and the serving node of each.
#[derive(Drop)]
struct Served<'a> {
    file: &'a TreeFile<'a>,
    n: usize,
    servings: &'a [u16],
    ghost of_file: { AcceptedFile file.now n },
    ghost servings_long: { n ≤ length servings.now },
}

impl<'a> Served<'a> {
    // The walk of node v by the walk of the row of its children.
    fn raised(&self, v: usize, member: bool, below: Walk) -> Walk
        requires v_in_file { v < self.now.n }
        requires bounded { Bounded below.load.0 below.relief.0 }
        ensures end_value { result.end ≡ below.end }
        ensures raised { Raised (demand_of self.now.file.now) member v below.load.0 below.relief.0 result.load.0 result.relief.0 }
    {
        let flow = self.file.flow(v);
        let relief = flow - self.file.cachable(v) + below.relief;
        let load = if member { relief } else { flow + below.load };
        Walk {
            end: below.end,
            load,
            relief,
        }
    }

    // Node v and all below it: the load above v draws on the row of its children. A member serves itself.
    #[cycle(node_row)]
    fn node(&self, loads: &mut [u64], v: usize) -> Walk
        requires loads_long { self.now.n ≤ length loads.old }
        requires le_v { (1 ≤ v) × (v < self.now.n) }
        ensures { NodeWalked (tree_of self.now.file.now) (demand_of self.now.file.now) (self_serving self.now.n self.now.servings.now) loads.old v result.end result.load.0 result.relief.0 loads.new }
    {
        let below = self.row(loads, v, v + 1);
        let walk = self.raised(v, usize::from(self.servings[v]) == v, below);
        loads[v] = walk.load.0;
        walk
    }

    // The row of v's children from node i on, and all below them: a row draws on each of its nodes by turns.
    #[cycle(node_row)]
    fn row(&self, loads: &mut [u64], v: usize, i: usize) -> Walk
        requires loads_long { self.now.n ≤ length loads.old }
        requires begins { Begins (tree_of self.now.file.now) v i }
        ensures { RowWalked (tree_of self.now.file.now) (demand_of self.now.file.now) (self_serving self.now.n self.now.servings.now) loads.old v i result.end result.load.0 result.relief.0 loads.new }
    {
        let mut walk = Walk {
            end: i,
            load: Flow::ZERO,
            relief: Flow::ZERO,
        };
        // Goes on where the last node's walk ended, so it counts no index.
        while walk.end < self.n && v <= self.file.parent(walk.end) {
            walk = joined(walk, self.node(loads, walk.end));
        }
        walk
    }
}

// ---- the total

// Loads times lengths, over the links above nodes 1 to n − 1.
fn links_total(file: &TreeFile, n: usize, loads: &[u64]) -> Total
    requires accepted_file { AcceptedFile file.now n × (n ≤ length loads.now) }
    requires n_bound { total_before (tree_of file.now) loads.now n < total_limit }
    ensures { result.0 ≡ total_before (tree_of file.now) loads.now n }
{
    let mut sum = Total::ZERO;
    for v in 1..n {
        sum = sum + Flow(loads[v]) * file.link_length(v);
    }
    sum
}

// ---- the bill

// Writes the serving nodes and the loads of a set, and gives its total.
fn write_bill(
    file: &TreeFile,
    n: usize,
    set: &[u16],
    servings: &mut [u16],
    loads: &mut [u64],
) -> Total
    requires billable { Billable file.now n set.now }
    requires walkable { Walkable file.now n servings.old loads.old }
    ensures { BillWritten file.now set.now servings.old loads.old result.0 servings.new loads.new }
{
    write_servings(file, n, set, servings);
    let served = Served {
        file: &*file,
        n,
        servings: &*servings,
    };
    served.row(loads, 0, 1);
    loads[0] = 0;
    links_total(file, n, loads)
}

// The total of a set, without buffers.
pub fn total_of(file: &TreeFile, n: usize, set: &[u16]) -> Total
    requires { Billable file.now n set.now }
    ensures { result.0 ≡ total (tree_of file.now) (demand_of file.now) set.now }
{
    let mut servings = [0u16; Tree::NODES];
    let mut loads = [0u64; Tree::NODES];
    write_bill(file, n, set, &mut servings, &mut loads)
}

// The bill of a set: the rules about the file, 12 and 14, then its total, with the serving node and the load above each node written.
pub fn bill(
    file: &[u8],
    set: &[u16],
    servings: &mut [u16],
    loads: &mut [u64],
) -> Result<Total, Refusal>
    ensures { BillCall file.now set.now record { servings = servings.entry.now; loads = loads.old } (bill_answer result) record { servings = servings.exit.now; loads = loads.new } }
{
    tree_file::file_ruling(file)?;
    let file = TreeFile::of(file);
    let n = file.count();
    Rule::Set.ask(is_set(&file, n, set))?;
    Rule::Buffers.ask(n <= servings.len())?;
    Rule::Buffers.ask(n <= loads.len())?;
    Ok(write_bill(&file, n, set, servings, loads))
}
