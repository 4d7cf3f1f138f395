// The plan's table in the scratch, behind the words of the nodes: a line for each node and each depth of a serving node above it,
// filled from the last node to the first.
#![tactic(auto)]

ghost use Rattle.std.specs.Prelude.{◌≡◌, cond, List, map, ℕ, ◌++◌, ◌+◌, ◌*◌, ◌≤◌, ◌<◌, ◌^◌, length};
ghost use Rattle.model.specs.File.{count_of, budget_of, tree_of, demand_of};
ghost use Rattle.model.specs.Bill.{cachable, price};
ghost use Rattle.model.specs.Situations.{first_situation, cost_in};
ghost use Rattle.best_rows.specs.Best.{cap};
ghost use Rattle.best_rows.specs.Guarded.{grants, may_be_under};
ghost use Rattle.node_words.specs.Words.{word_of, depth_word, child_word};
ghost use Rattle.places.specs.Places.{start_at};
ghost use Rattle.lines.specs.Line.{most_width, Line, NodeParts, line_own, line_best};
ghost use Rattle.laws.specs.Lists.{range};
ghost use Rattle.table.specs.Table.{line_at, InTable, line_in, ServerLineThere, TableRoom, NodeWordsStored, LinesFilled, TableFrom, as_cache, Client, LineToFill, ChildAndSibling, Beside, with_line};
ghost use Rattle.table.specs.Situations.{situation_of};
ghost use Rattle.table.specs.Wishes.{wish_of};

use fields::TreeFile;
use lines::NodeLines;
use places::Place;
use units::{Distance, Flow, Total};

// ---- where a line is in the scratch

// The index of the first entry of the line of node x with a serving node at depth a. Node 0 stands for the empty row: its line is
// word 0, the server's distance, which is 0.
fn line_at(places: &[Place], x: usize, a: usize) -> usize
    requires { (x < length places.now) × (line_at places.now x a < 2 ^ 64) }
    ensures { result ≡ line_at places.now x a }
{
    if x == 0 {
        return 0;
    }
    places[x].first() + a * places[x].entries()
}

// The words of the scratch, with the places of each node's lines in them.
#[derive(Clone, Copy)]
pub struct Table<'a> {
    pub words: &'a [u64],
    pub places: &'a [Place],
}

impl<'a> Table<'a> {
    // The line of node x with a serving node at depth a.
    pub fn line(&self, x: usize, a: usize) -> &'a [u64]
        requires { InTable self.now.places.now self.now.words.now x a }
        ensures { result.now ≡ line_in self.now.places.now self.now.words.now x a }
    {
        let start = line_at(self.places, x, a);
        &self.words[start..start + self.places[x].entries()]
    }

    // The line of the row of the server's children: for each number of caches the least cost of all sites together.
    pub fn server_line(&self) -> &'a [u64]
        requires { ServerLineThere self.now.places.now self.now.words.now }
        ensures { result.now ≡ line_in self.now.places.now self.now.words.now (word_of self.now.words.now 0 child_word) 0 }
    {
        self.line(node_words::child_of(self.words, 0), 0)
    }
}

// ---- a node's own cost

// The situation of one client: no cache is on its route, or one is, and nothing, everything or a part of its flow is cachable.
#[derive(Clone, Copy)]
enum Situation {
    NoCache,
    Nothing,
    Everything,
    Partly,
}

// The first that holds for a client of flow `all`, of which `part` is cachable, where u serves it.
fn situation_of(all: Flow, part: Flow, u: usize) -> Situation
    ensures { situation_of result ≡ first_situation all.0 part.0 u }
{
    let all = all.0;
    let part = part.0;
    if u == 0 {
        return Situation::NoCache;
    }
    if part == 0 {
        return Situation::Nothing;
    }
    if part == all {
        return Situation::Everything;
    }
    Situation::Partly
}

// What the client costs in its situation. 004, section II-A, has one formula, here for the client v, a cache u on its route and the
// server s,
//     f · [p · d(v, u) + (1 − p) · (d(v, u) + d(u, s))]
// and each arm is what is left of it. `all` is f, `part` is f · p, `far` is d(v, s) and `near` is d(u, s).
fn cost_in(situation: Situation, all: Flow, part: Flow, far: Distance, near: Distance) -> Total
    requires { (part.0 ≤ all.0) × (near.0 ≤ far.0) × (all.0 * far.0 < 2 ^ 64) }
    ensures { result.0 ≡ cost_in (situation_of situation) all.0 part.0 far.0 near.0 }
{
    match situation {
        // no cache at all, so u is s: f · d(v, s)
        Situation::NoCache => all * far,
        // p = 0: f · (d(v, u) + d(u, s)), which is f · d(v, s)
        Situation::Nothing => all * far,
        // p = 1: f · d(v, u)
        Situation::Everything => all * (far - near),
        // else the whole formula, f · d(v, s) − f · p · d(u, s)
        Situation::Partly => all * far - part * near,
    }
}

// What node v pays if u serves it, where `part` is the cachable part of its flow.
pub fn pays(file: &TreeFile, part: Flow, s: &[u64], v: usize, u: usize) -> Total
    requires client { Client file.now s.now v u }
    requires part_value { part.0 ≡ cachable (demand_of file.now) v }
    ensures { result.0 ≡ price (tree_of file.now) (demand_of file.now) v u }
{
    let all = file.flow(v);
    let situation = situation_of(all, part, u);
    let far = node_words::distance_of(s, v);
    let near = node_words::distance_of(s, u);
    cost_in(situation, all, part, far, near)
}

// What node v pays as a cache, which is the cap where it is closed.
pub fn pays_itself(file: &TreeFile, part: Flow, s: &[u64], v: usize) -> Total
    requires client { Client file.now s.now v v }
    requires part_value { part.0 ≡ cachable (demand_of file.now) v }
    ensures { result.0 ≡ as_cache (tree_of file.now) (demand_of file.now) v }
{
    let price = pays(file, part, s, v, v);
    if file.is_open(v) {
        return price;
    }
    Total::CAP
}

// ---- a wish for one node

// A wish that a node, by its number, is a cache (`cached`), or that it is not.
#[derive(Clone, Copy, PartialEq, Eq, Debug)]
pub struct Wish {
    pub node: usize,
    pub cached: bool,
}

// Does a wish let node v be a cache (`cached`), or not be one? Without a wish it may be either.
fn grants(wish: Option<Wish>, v: usize, cached: bool) -> bool
    ensures { result ≡ grants (wish_of wish) v cached }
{
    wish.is_none_or(|w| v != w.node || cached == w.cached)
}

// What node v pays under a wish as a cache (`cached`), or as none, where that is `price` without the wish: the cap if the wish
// does not let it.
fn price_under(wish: Option<Wish>, v: usize, cached: bool, price: Total) -> Total
    ensures { result.0 ≡ cond (grants (wish_of wish) v cached) price.0 cap }
{
    if !grants(wish, v, cached) {
        return Total::CAP;
    }
    price
}

// ---- one line

// A line to store: that of node v with its ancestor u at depth a as the serving node. As a cache v itself pays `member`, else `other`,
// under the wish. The wish and u serve the contracts alone, as the file does in `fill_line` and `fill_one`.
#[derive(Clone, Copy)]
struct NewLine {
    v: usize,
    a: usize,
    u: usize,
    member: Total,
    other: Total,
    wish: Option<Wish>,
}

// The words before and behind the line of w entries that is being stored, and the places of all lines.
#[derive(Clone, Copy)]
struct Around<'a> {
    before: &'a [u64],
    w: usize,
    behind: &'a [u64],
    places: &'a [Place],
}

impl<'a> Around<'a> {
    // The line of node x with a serving node at depth a, which is word 0 or behind.
    fn line(&self, x: usize, a: usize) -> &'a [u64]
        requires { Beside self.now.places.now (length self.now.before.now) self.now.w (length self.now.behind.now) x a }
        ensures { (l : List ℕ) → length l ≡ self.now.w → result.now ≡ line_in self.now.places.now (self.now.before.now ++ (l ++ self.now.behind.now)) x a }
    {
        if x == 0 {
            return &self.before[..1];
        }
        let start = line_at(self.places, x, a) - (self.before.len() + self.w);
        &self.behind[start..start + self.places[x].entries()]
    }
}

// Where v has no children u serves the later siblings whether v is a cache or not, so their line `rest` takes the place of both lines
// of children.
fn fill_leaf(line: &mut [u64], rest: &[u64], member: Total, other: Total)
    requires parts { NodeParts rest.now rest.now member.0 other.0 }
    requires line_in_bounds { (0 < length line.old) × (length line.old ≤ length rest.now + 1) }
    ensures { line.new ≡ map (line_own rest.now rest.now member.0 other.0) (range 0 (length line.old)) }
{
    let node = NodeLines {
        cached: rest,
        uncached: rest,
        member,
        other,
    };
    node.own_line(line);
}

// Where v has both, the line of v and its children is made in local memory and then joined with the later siblings'.
fn fill_joined(line: &mut [u64], node: &NodeLines, rest: &[u64])
    requires rest_line { Line rest.now }
    requires line_in_bounds { (0 < length line.old) × (length rest.now ≤ length line.old) × (length line.old ≤ most_width) }
    ensures { line.new ≡ map (line_best node.now.cached.now node.now.uncached.now rest.now node.now.member.0 node.now.other.0) (range 0 (length line.old)) }
{
    let own = line.len().min(node.cached.len() + 1);
    let mut front = [0; lines::WIDTH];
    node.own_line(&mut front[..own]);
    lines::row_line(line, &front[..own], rest);
}

// Stores the line of v at the start of `tail`, the words of the scratch from there on, from the lines of v's children, served by v,
// and by u, and of its later siblings, served by u.
fn fill_line(
    file: &TreeFile,
    before: &[u64],
    tail: &mut [u64],
    places: &[Place],
    new: NewLine,
    depth: usize,
    child: usize,
    sibling: usize,
)
    requires line_to_fill { LineToFill file.now (wish_of new.wish) places.now (before.now ++ tail.old) new.v new.a new.u new.member.0 new.other.0 }
    requires line_place { length before.now ≡ line_at places.now new.v new.a }
    requires depth_value { depth ≡ word_of (before.now ++ tail.old) new.v depth_word }
    requires child_and_sibling { ChildAndSibling (before.now ++ tail.old) new.v child sibling }
    ensures { before.now ++ tail.new ≡ with_line file.now (wish_of new.wish) (before.now ++ tail.old) new.v new.a }
{
    let w = places[new.v].entries();
    let (line, behind) = tail.split_at_mut(w);
    let around = Around {
        before,
        w,
        behind,
        places,
    };
    let cached = around.line(child, depth);
    let uncached = around.line(child, new.a);
    let rest = around.line(sibling, new.a);
    let node = NodeLines {
        cached,
        uncached,
        member: new.member,
        other: new.other,
    };
    // with no later siblings the row's line is that of v and its children
    if sibling == 0 {
        node.own_line(line);
        return;
    }
    if child == 0 {
        fill_leaf(line, rest, new.member, new.other);
        return;
    }
    fill_joined(line, &node, rest);
}

// Stores the line of v in its place.
fn fill_one(file: &TreeFile, s: &mut [u64], places: &[Place], new: NewLine)
    requires { LineToFill file.now (wish_of new.wish) places.now s.old new.v new.a new.u new.member.0 new.other.0 }
    ensures { s.new ≡ with_line file.now (wish_of new.wish) s.old new.v new.a }
{
    let depth = node_words::depth_word(s, new.v);
    let child = node_words::child_of(s, new.v);
    let sibling = node_words::sibling_of(s, new.v);
    let start = line_at(places, new.v, new.a);
    let (before, tail) = s.split_at_mut(start);
    fill_line(file, before, tail, places, new, depth, child, sibling);
}

// ---- the table

// Stores the lines of node v, for each node above it as the serving node, from its parent up to the server.
fn fill_node(file: &TreeFile, s: &mut [u64], places: &[Place], v: usize, wish: Option<Wish>)
    requires v_nonzero { (0 < v) × (v < count_of file.now) }
    requires table_from { TableFrom file.now (may_be_under (tree_of file.now) (wish_of wish)) places.now s.old (start_at (tree_of file.now) (budget_of file.now) (v + 1)) }
    ensures { LinesFilled file.now (may_be_under (tree_of file.now) (wish_of wish)) places.now (start_at (tree_of file.now) (budget_of file.now) v) s.old s.new }
{
    let part = file.cachable(v);
    let itself = pays_itself(file, part, s, v);
    let member = price_under(wish, v, true, itself);
    let mut u = v;
    for a in (0..node_words::depth_word(s, v)).rev() {
        u = file.parent(u);
        let above = pays(file, part, s, v, u);
        let other = price_under(wish, v, false, above);
        let new = NewLine {
            v,
            a,
            u,
            member,
            other,
            wish,
        };
        fill_one(file, s, places, new);
    }
}

// Stores all lines, from the last node's to the first's: the lines of children and later siblings are there when they are needed.
fn fill_table(file: &TreeFile, s: &mut [u64], places: &[Place], wish: Option<Wish>)
    requires { NodeWordsStored file.now places.now s.old }
    ensures { LinesFilled file.now (may_be_under (tree_of file.now) (wish_of wish)) places.now 0 s.old s.new }
{
    for v in (1..file.count()).rev() {
        fill_node(file, s, places, v, wish);
    }
}

// Stores the words of the nodes and all lines of the table under a wish, and changes nothing behind them.
pub fn make_table(file: &TreeFile, s: &mut [u64], places: &[Place], wish: Option<Wish>)
    requires { TableRoom file.now places.now s.old }
    ensures { LinesFilled file.now (may_be_under (tree_of file.now) (wish_of wish)) places.now 0 s.old s.new }
{
    node_words::note_nodes(file, file.count(), s);
    fill_table(file, s, places, wish);
}
