// What the planner has to answer of a tree of at most six nodes, by the definitions and by full enumeration.
//
// Nothing here is shared with the planner, so that a program can set one against the other. What a definition says of
// every node is gone through for the six; a node that the tree lacks has no flow.
#![tactic(auto)]

ghost use Rattle.std.specs.Prelude.{◌*◌, ◌≤◌};

use small_trees::{Nodes, SmallTree};
use std::cmp::Ordering;

// ---- the nodes below a node, and distances

// The nodes at or below v.
fn at_or_below(tree: &SmallTree, v: usize) -> Nodes {
    (0..6)
        .filter(|c| tree.route(*c).has(v))
        .fold(Nodes::NONE, Nodes::with)
}

// d(v), in lengths.
fn distance(tree: &SmallTree, v: usize) -> u64
    ensures { result ≤ 327675 }
{
    let way = tree.route(v);
    let mut lengths = 0;
    for u in 1..6 {
        if way.has(u) {
            lengths += u64::from(tree.record(u).length);
        }
    }
    lengths
}

// ---- the bill

// What the client at c would cost, in thousandths, served at v: flow × (1,000 × d(c) − hit × d(v)), and from
// version 2 on 1,000 × (flow × d(c) − cachable × d(v)). A difference is 0 where there would be none.
fn price(tree: &SmallTree, c: usize, v: usize) -> u64
    ensures { result ≤ 4294967295 * 327675000 }
{
    let flow = u64::from(tree.record(c).flow);
    let share = u64::from(tree.record(c).share);
    let from_client = distance(tree, c);
    let from_cache = distance(tree, v);
    if tree.has_ratios() {
        flow * (1000 * from_client).saturating_sub(share * from_cache)
    } else {
        1000 * (flow * from_client).saturating_sub(share * from_cache)
    }
}

// What the client at c puts on a link where a cache serves it: flow × (1,000 − hit), and from version 2 on
// 1,000 × (flow − cachable).
fn served_load(tree: &SmallTree, c: usize) -> u64
    ensures { result ≤ 4294967295 * 1000 }
{
    let flow = u64::from(tree.record(c).flow);
    let share = u64::from(tree.record(c).share);
    if tree.has_ratios() {
        flow * 1000u64.saturating_sub(share)
    } else {
        1000 * flow.saturating_sub(share)
    }
}

// The bill of a set: of caches at its nodes.
#[derive(Clone, Copy)]
pub struct Bill<'a> {
    pub tree: &'a SmallTree,
    pub set: Nodes,
}

impl Bill<'_> {
    // What the client at c costs: the least price over the server and the members of the set on its route.
    fn cost(self, c: usize) -> u64
        ensures { result ≤ 4294967295 * 327675000 }
    {
        let sites = self.set & self.tree.route(c);
        let from_server = price(self.tree, c, 0);
        sites
            .members()
            .map(|v| price(self.tree, c, usize::from(v)))
            .min()
            .unwrap_or(from_server)
            .min(from_server)
    }

    // The total of the set.
    pub fn total(self) -> u64 {
        let mut total = 0;
        for c in 0..6 {
            total += self.cost(c);
        }
        total
    }

    // The first member of the set met going up from c, else 0. On a route the numbers fall, so it is the greatest.
    pub fn serving(self, c: usize) -> usize {
        let met = self.set & self.tree.route(c);
        met.members().last().map_or(0, usize::from)
    }

    // What the client at c puts on the link above v.
    fn client_load(self, c: usize, v: usize) -> u64
        ensures { result ≤ 4294967295 * 1000 }
    {
        let way = self.tree.route(c);
        if !way.has(v) {
            0
        } else if self.set & way & at_or_below(self.tree, v) == Nodes::NONE {
            u64::from(self.tree.record(c).flow) * 1000
        } else {
            served_load(self.tree, c)
        }
    }

    // The load on the link above v, 0 for the server.
    pub fn load(self, v: usize) -> u64
        ensures { result ≤ 6 * 4294967295000 }
    {
        if v == 0 {
            return 0;
        }
        let mut load = 0;
        for c in 0..6 {
            load += self.client_load(c, v);
        }
        load
    }

    // The load on the link above v times its length.
    fn load_by_length(self, v: usize) -> u64
        ensures { result ≤ 25769803770000 * 65535 }
    {
        self.load(v) * u64::from(self.tree.record(v).length)
    }

    // The sum of all loads times lengths.
    pub fn loads_by_lengths(self) -> u64 {
        let mut sum = 0;
        for v in 1..6 {
            sum += self.load_by_length(v);
        }
        sum
    }
}

// ---- the words of scratch

// How many of the six nodes the tree has.
fn node_count(tree: &SmallTree) -> usize
    ensures { result ≤ 6 }
{
    tree.nodes.min(6)
}

// How many links there are between v and the server.
fn depth(tree: &SmallTree, v: usize) -> usize
    ensures { result ≤ 6 }
{
    tree.route(v).size().saturating_sub(1)
}

// r(v): how many nodes are at or below v or one of its later siblings, closed ones too.
fn row_nodes(tree: &SmallTree, v: usize) -> usize
    ensures { result ≤ 6 }
{
    (v..node_count(tree))
        .filter(|s| tree.parent(*s) == tree.parent(v))
        .fold(Nodes::NONE, |row, s| row | at_or_below(tree, s))
        .size()
}

// The words that node v adds: depth(v) × (min(k, r(v)) + 1).
fn words_of(tree: &SmallTree, v: usize) -> usize
    ensures { result ≤ 6 * 7 }
{
    depth(tree, v) * (row_nodes(tree, v).min(tree.budget) + 1)
}

// The words of scratch that rule 13 asks for: those of nodes 1, 2 and so on, and 4 × n.
pub fn scratch_words(tree: &SmallTree) -> usize
    ensures { result ≤ 234 }
{
    let mut words = 4 * node_count(tree);
    for v in 1..node_count(tree) {
        words += words_of(tree, v);
    }
    words
}

// ---- the order of ties, and ranking

// What node v says of two sets: more members at or below it, then the set without the node itself.
fn order_at(tree: &SmallTree, first: Nodes, second: Nodes, v: usize) -> Ordering {
    let below = at_or_below(tree, v);
    (second & below)
        .size()
        .cmp(&(first & below).size())
        .then(first.has(v).cmp(&second.has(v)))
}

// The order of ties: fewest nodes, then by nodes 1, 2, and so on, closed ones too.
fn order_of_ties(tree: &SmallTree, first: Nodes, second: Nodes) -> Ordering {
    (1..6).fold(first.size().cmp(&second.size()), |order, v| {
        order.then_with(|| order_at(tree, first, second, v))
    })
}

// Does the first of two sets rank first, by total and then by the order of ties? Of equal sets it does.
pub fn ranks_first(tree: &SmallTree, first: Nodes, second: Nodes) -> bool {
    let one = Bill { tree, set: first };
    let other = Bill { tree, set: second };
    one.total()
        .cmp(&other.total())
        .then_with(|| order_of_ties(tree, first, second))
        .is_le()
}

// ---- the plan

// The nodes that a set of this tree may have: the open ones but the server.
fn sites_of(tree: &SmallTree) -> Nodes {
    if 6 < tree.nodes {
        return Nodes::NONE;
    }
    (1..tree.nodes)
        .filter(|v| tree.record(*v).open)
        .fold(Nodes::NONE, Nodes::with)
}

// Is this a set of at most so many of the tree's open nodes, without the server?
pub fn is_choice(tree: &SmallTree, set: Nodes, budget: usize) -> bool {
    set & sites_of(tree) == set && set.size() <= budget
}

// The plan's set for a budget: of all sets of at most so many open nodes, the one that ranks first.
pub fn plan(tree: &SmallTree, budget: usize) -> Nodes {
    (1..64)
        .map(Nodes)
        .filter(|set| is_choice(tree, *set, budget))
        .fold(Nodes::NONE, |best, set| {
            if ranks_first(tree, best, set) {
                best
            } else {
                set
            }
        })
}

// ---- with one node, or without it

// The least total of all sets of at most so many open nodes that have node v, or of those that don't, if there is such a set.
fn least_where(tree: &SmallTree, v: usize, member: bool, budget: usize) -> Option<u64> {
    (0..64)
        .map(Nodes)
        .filter(|set| set.has(v) == member && is_choice(tree, *set, budget))
        .map(|set| Bill { tree, set }.total())
        .min()
}

pub fn least_with(tree: &SmallTree, v: usize, budget: usize) -> Option<u64> {
    least_where(tree, v, true, budget)
}

pub fn least_without(tree: &SmallTree, v: usize, budget: usize) -> Option<u64> {
    least_where(tree, v, false, budget)
}

// ---- the greedy rule

// The node that the greedy rule takes next: the smallest that gives the least total. There is none where none lowers the total,
// as no member of the set does, no closed node and no node that the tree lacks.
pub fn greedy_node(tree: &SmallTree, set: Nodes) -> Option<usize> {
    let so_far = Bill { tree, set }.total();
    let sites = sites_of(tree);
    let with = |v| Bill {
        tree,
        set: set.with(v),
    };
    (1..6)
        .filter(|v| sites.has(*v) && with(*v).total() < so_far)
        .min_by_key(|v| with(*v).total())
}

// The set that the greedy rule holds after at most so many steps.
pub fn greedy(tree: &SmallTree, steps: usize) -> Nodes {
    let mut set = Nodes::NONE;
    for _ in 0..steps {
        let Some(v) = greedy_node(tree, set) else {
            break;
        };
        set = set.with(v);
    }
    set
}
