// One line of the plan's table: entry n is the least cost of a row of siblings with n caches. It is made from three other lines:
// that of the children of the row's first node if the node is a cache (`cached`), that of the children if it is none (`uncached`),
// and that of the node's later siblings (`rest`). A line ends at the budget, or before it where more caches do not fit.
#![tactic(auto)]

ghost use Rattle.std.specs.Prelude.{◌≡◌, true, false, map, ◌+◌, ◌≤◌, ◌<◌, min, length};
ghost use Rattle.laws.specs.Lists.{range};
ghost use Rattle.best_rows.specs.Best.{cap};
ghost use Rattle.lines.specs.Line.{entry_of, Line, NodeParts, RowParts, line_cost_if, line_takes, line_node, line_own, line_split, line_later, line_best, joined_best, Begun, Lowered};

use units::Total;

// The most entries that a line has: one for each number of caches from 0 to the largest budget.
pub const WIDTH: usize = fields::Tree::BUDGET + 1;

// Entry n of a line, and past its end the cap.
#[tactic(auto, unfolding(best_rows::specs::Best::cap))]
pub fn entry(line: &[u64], n: usize) -> Total
    ensures { result.0 ≡ entry_of line.now n }
{
    line.get(n).map_or(Total::CAP, |x| Total(*x))
}

// ---- a node and its children

// What a node and its children cost, with the node as a cache and without.
#[derive(Clone, Copy)]
struct NodeCosts {
    member: Total,
    other: Total,
}

// A node and the lines of its children: as a cache the node itself pays `member` and its children have the line `cached`, else
// it pays `other` and they have `uncached`.
#[derive(Clone, Copy)]
pub struct NodeLines<'a> {
    pub cached: &'a [u64],
    pub uncached: &'a [u64],
    pub member: Total,
    pub other: Total,
    pub ghost parts: { NodeParts cached.now uncached.now member.0 other.0 },
}

impl NodeLines<'_> {
    // What the node and its children cost with n caches at or below the node, by whether the node is one of them.
    fn costs(&self, n: usize) -> NodeCosts
        ensures member_value { result.member.0 ≡ line_cost_if self.now.cached.now self.now.uncached.now self.now.member.0 self.now.other.0 n true }
        ensures other_value { result.other.0 ≡ line_cost_if self.now.cached.now self.now.uncached.now self.now.member.0 self.now.other.0 n false }
    {
        let other = self.other + entry(self.uncached, n);
        if n == 0 {
            return NodeCosts {
                member: Total::CAP,
                other,
            };
        }
        NodeCosts {
            member: self.member + entry(self.cached, n - 1),
            other,
        }
    }

    // The least cost of the node and its children with n caches.
    fn best(&self, n: usize) -> Total
        ensures { result.0 ≡ line_node self.now.cached.now self.now.uncached.now self.now.member.0 self.now.other.0 n }
    {
        let costs = self.costs(n);
        costs.member.lesser(costs.other)
    }

    // Whether the node itself is one of the n caches: it is, if that costs less than leaving it out.
    pub fn takes(&self, n: usize) -> bool
        ensures { result ≡ line_takes self.now.cached.now self.now.uncached.now self.now.member.0 self.now.other.0 n }
    {
        let costs = self.costs(n);
        costs.member.is_less(costs.other)
    }

    // The cost of the row of this node and its later siblings with m caches, of which r are among the siblings.
    fn split(&self, rest: &[u64], m: usize, r: usize) -> Total
        requires rest_line { Line rest.now }
        requires r_le_m { r ≤ m }
        ensures { result.0 ≡ line_split self.now.cached.now self.now.uncached.now rest.now self.now.member.0 self.now.other.0 m r }
    {
        self.best(m - r) + entry(rest, r)
    }

    // How many of that row's m caches are among the later siblings: the smallest number at which the split costs `least`, the least
    // cost of the row, and m where no smaller one does. At or below the node there are at most as many as its children's line has
    // entries.
    pub fn later(&self, rest: &[u64], m: usize, least: Total) -> usize
        requires rest_line { Line rest.now }
        requires least_value { (least.0 ≡ line_best self.now.cached.now self.now.uncached.now rest.now self.now.member.0 self.now.other.0 m) × (least.0 < cap) }
        ensures { result ≡ line_later self.now.cached.now self.now.uncached.now rest.now self.now.member.0 self.now.other.0 m }
    {
        for r in m - m.min(self.cached.len())..m {
            let cost = self.split(rest, m, r);
            if !least.is_less(cost) {
                return r;
            }
        }
        m
    }
}

// ---- the line of a node and its children

// The least cost of a node and its children, at most the cap, where the children cost `cached` if the node is a cache and
// `uncached` if it is none.
#[tactic(auto, unfolding(best_rows::specs::Best::cap))]
fn own_entry(member: Total, other: Total, cached: Total, uncached: Total) -> Total
    requires { (member.0 ≤ cap) × (other.0 ≤ cap) × (cached.0 ≤ cap) × (uncached.0 ≤ cap) }
    ensures { result.0 ≡ min (min cap (member.0 + cached.0)) (other.0 + uncached.0) }
{
    Total::CAP
        .lowered(member + cached)
        .lowered(other + uncached)
}

impl NodeLines<'_> {
    // Stores as many entries of the node's line as `line` has. In entry 0 the node is none; with more caches than its children can
    // have it is one.
    pub fn own_line(&self, line: &mut [u64])
        requires { (0 < length line.old) × (length line.old ≤ length self.now.cached.now + 1) }
        ensures { line.new ≡ map (line_own self.now.cached.now self.now.uncached.now self.now.member.0 self.now.other.0) (range 0 (length line.old)) }
    {
        let end = line.len();
        let w = self.cached.len();
        line[0] = own_entry(self.member, self.other, Total::CAP, Total(self.uncached[0])).0;
        // by index here and in the two loops below: after `iter_mut` nothing is known of what was stored
        for n in 1..end.min(w) {
            let with = Total(self.cached[n - 1]);
            let without = Total(self.uncached[n]);
            line[n] = own_entry(self.member, self.other, with, without).0;
        }
        if w < end {
            let last = Total(self.cached[w - 1]);
            line[w] = own_entry(self.member, self.other, last, Total::CAP).0;
        }
    }
}

// ---- the line of a row

// For each n < end: line[r + n] becomes other[n] + cost if that is smaller.
fn lower(line: &mut [u64], other: &[u64], end: usize, r: usize, cost: Total)
    requires end_in_bounds { (r + end ≤ length line.old) × (end ≤ length other.now) }
    requires line { Line line.old × Line other.now × (cost.0 ≤ cap) }
    ensures { Lowered line.old other.now end r cost.0 line.new }
{
    for n in 0..end {
        let m = r + n;
        line[m] = Total(line[m]).lowered(Total(other[n]) + cost).0;
    }
}

// For each n, line[n] becomes other[n] + cost, or the cap if that is not smaller. What the line held is not read.
fn begin(line: &mut [u64], other: &[u64], cost: Total)
    requires other_in_bounds { length other.now ≤ length line.old }
    requires line { Line other.now × (cost.0 ≤ cap) }
    ensures { Begun other.now cost.0 line.new }
{
    for n in 0..other.len() {
        line[n] = Total::CAP.lowered(Total(other[n]) + cost).0;
    }
}

// Makes the line of a row of two parts from their lines: entry m is the least sum of an entry n of the first and an entry m − n of
// the second, or the cap if that is not smaller. Past the first sums the cap is stored: so many caches do not fit yet.
fn joined(line: &mut [u64], first: &[u64], second: &[u64])
    requires { RowParts (length line.old) first.now second.now }
    ensures { line.new ≡ map (joined_best first.now second.now) (range 0 (length line.old)) }
{
    begin(line, first, Total(second[0]));
    line[first.len()..].fill(Total::CAP.0);
    for r in 1..second.len() {
        let end = first.len().min(line.len() - r);
        lower(line, first, end, r, Total(second[r]));
    }
}

// Makes a row's line from its first node's line and its later siblings'. The shorter line drives the outer loop.
pub fn row_line(line: &mut [u64], node: &[u64], rest: &[u64])
    requires { RowParts (length line.old) node.now rest.now }
    ensures { line.new ≡ map (joined_best node.now rest.now) (range 0 (length line.old)) }
{
    if node.len() < rest.len() {
        joined(line, rest, node);
    } else {
        joined(line, node, rest);
    }
}
