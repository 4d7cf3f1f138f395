// A fixed sequence of trees of at most six nodes: 9,000 trees in all versions, and then the first 120 of them again in version 3,
// with every pattern of closed nodes.
#![tactic(auto)]

ghost use Rattle.std.specs.Prelude.{IfOk, take, ◌≡◌, ◌-◌, ◌≤◌};

use small_trees::{Nodes, Record, SmallTree};
use std::io;
use std::io::{BufWriter, Printer, Write};
use std::ops::Range;

// Where the first part ends, and where the second does: it has 64 numbers for each of its trees, one to a pattern.
pub const TREES: u64 = 9000;

pub const END: u64 = TREES + 64 * 120;

// ---- a tree by the numbers that follow its own

// The numbers of nodes, one after the other.
const COUNTS: [usize; 12] = [1, 2, 3, 4, 5, 5, 5, 6, 6, 6, 6, 6];

// The number of nodes of tree i.
fn nodes_of(i: u64) -> usize
    ensures { result ≤ 6 }
{
    COUNTS[(i % 12) as usize]
}

// The next number of a congruential sequence.
fn after(number: u64) -> u64 {
    number % 2147483647 * 48271 % 2147483647
}

// The styles from here on have clients only at nodes without children.
const LEAVES: u64 = 27;

// A style: 27 with clients anywhere, and as often one of four with clients at leaves, positive values and all of a flow
// cachable.
fn style_by(number: u64) -> u64 {
    let style = number % 54;
    if style < LEAVES {
        style
    } else {
        LEAVES + style % 2 + style / 2 % 2 * 3
    }
}

// A number, and the style of the values that are made by it.
#[derive(Clone, Copy)]
struct Draw {
    number: u64,
    style: u64,
}

impl Draw {
    // By style: 1; 1 or 2; 0, 1 or 2.
    fn value(self) -> u64
        ensures { result ≤ 2 }
    {
        match self.style % 3 {
            0 => 1,
            1 => 1 + self.number % 2,
            _ => self.number % 3,
        }
    }

    // A length for node v; the server has none.
    fn length(self, v: usize) -> u64
        ensures { result ≤ 2 }
    {
        if v == 0 { 0 } else { self.value() }
    }

    // By style: 1,000; 1,000 or 500; 0, 1,000 or 500.
    fn hit(self) -> u64
        ensures { result ≤ 1000 }
    {
        match self.value() {
            1 => 1000,
            choice => 250 * choice,
        }
    }

    // A flow; from version 2 on three times as large, so that a part of it is seldom a whole thousandth.
    fn flow(self, tree: &SmallTree) -> u64
        ensures { result ≤ 6 }
    {
        let flow = self.value();
        if tree.has_ratios() { flow } else { 3 * flow }
    }

    // By style: the flow; the flow or 1 to 5 bytes of it; nothing, the flow or 1 to 5 bytes of it.
    fn cachable(self, flow: u64) -> u64
        requires { flow ≤ 6 }
        ensures { result ≤ 6 }
    {
        match self.value() {
            0 => 0,
            1 => flow,
            _ => flow.min(1 + self.number / 6 % 5),
        }
    }

    // A share of this flow.
    fn share(self, tree: &SmallTree, flow: u64) -> u64
        requires { flow ≤ 6 }
        ensures { result ≤ 1000 }
    {
        if tree.has_ratios() {
            self.hit()
        } else {
            self.cachable(flow)
        }
    }
}

// A parent for node v: a node on the route of node v - 1.
fn parent_by(tree: &SmallTree, v: usize, number: u64) -> u16 {
    if v == 0 {
        return 0;
    }
    let way = tree.route(v - 1);
    match number.checked_rem(way.size() as u64) {
        Some(place) => way.members().nth(place as usize).unwrap_or(0),
        None => 0,
    }
}

// Is a node open? In version 3 two of three are.
fn open_by(tree: &SmallTree, number: u64) -> bool {
    tree.version < 3 || number % 3 != 0
}

// A record for node v of a tree that has those before it.
fn record_by(tree: &SmallTree, v: usize, number: u64, style: u64) -> Record {
    let length = Draw {
        number: number / 60,
        style,
    };
    let flow = Draw {
        number: number / 360,
        style: style / 3,
    };
    let share = Draw {
        number: number / 2160,
        style: style / 9,
    };
    let flow = flow.flow(tree);
    Record {
        parent: parent_by(tree, v, number),
        length: length.length(v) as u16,
        flow: flow as u32,
        share: share.share(tree, flow) as u32,
        open: open_by(tree, number / 64800),
    }
}

// The tree with no flow at v, and no cachable bytes.
fn without_client(tree: SmallTree, v: usize) -> SmallTree {
    let mut record = tree.record(v);
    record.flow = 0;
    if !tree.has_ratios() {
        record.share = 0;
    }
    tree.with_record(v, record)
}

// A tree with a record for node v.
fn grown(tree: SmallTree, v: usize, number: u64, style: u64) -> SmallTree {
    let record = record_by(&tree, v, number, style);
    if style < LEAVES {
        tree.with_record(v, record)
    } else {
        without_client(tree, usize::from(record.parent)).with_record(v, record)
    }
}

// One version as often as another.
fn version_by(number: u64) -> u16 {
    if number % 6 < 2 {
        3
    } else {
        1 + (number % 2) as u16
    }
}

// The number that tree i begins with.
fn first_number(i: u64) -> u64 {
    after(after(i % 1000000 + 1))
}

// Tree i in this version: 1 to 6 nodes, a budget from 0 to 6, and records by the numbers that follow i.
fn tree_by(version: u16, i: u64) -> SmallTree {
    let mut number = first_number(i);
    let style = style_by(number / 7);
    let nodes = nodes_of(i);
    let mut tree = SmallTree::bare(version, nodes, (number % 7) as usize);
    for v in 0..nodes {
        number = after(number);
        tree = grown(tree, v, number, style);
    }
    tree
}

// ---- patterns of closed nodes

// Tree i in version 3, of which just these nodes are open.
fn tree_open_at(i: u64, open: Nodes) -> SmallTree {
    (0..6).fold(tree_by(3, i), |tree, v| {
        let mut record = tree.record(v);
        record.open = open.has(v);
        tree.with_record(v, record)
    })
}

// Does tree i have all the nodes that a pattern opens?
fn is_pattern(i: u64, open: u64) -> bool {
    open < 1 << nodes_of(i)
}

// ---- the sequence

// Is there a tree of this number? In the second part there is none where the pattern opens a node that the tree lacks.
fn has_tree(i: u64) -> bool {
    i < TREES || is_pattern((i - TREES) / 64, (i - TREES) % 64)
}

// The tree of this number.
pub fn nth_tree(i: u64) -> SmallTree {
    if i < TREES {
        tree_by(version_by(first_number(i) / 378), i)
    } else {
        tree_open_at((i - TREES) / 64, Nodes(((i - TREES) % 64) as u8))
    }
}

// A tree of the sequence with its number, its budget and, in the first bytes, its file.
#[derive(Drop)]
pub struct Case {
    pub number: u64,
    pub tree: SmallTree,
    pub budget: usize,
    bytes: [u8; 87],
    size: usize,
    pub ghost budget_within_six: { budget ≤ 6 },
    ghost size_within_bytes: { size ≤ 87 },
}

impl Case {
    fn nth(number: u64) -> Case {
        let tree = nth_tree(number);
        let mut bytes = [0; 87];
        let size = tree.write_file(&mut bytes);
        Case {
            number,
            tree,
            budget: tree.budget_within_six(),
            bytes,
            size,
        }
    }

    // The tree's file.
    pub fn file(&self) -> &[u8]
        ensures { result.now ≡ take self.now.size self.now.bytes }
    {
        &self.bytes[..self.size]
    }
}

// Hands each tree of these numbers to `check`, up to an error, and answers how many there are.
pub fn each_tree<F: FnMut(&Case) -> io::Result<()> + Drop>(
    numbers: Range<u64>,
    mut check: F,
) -> io::Result<u64>
    requires { F.IsAlwaysCallable check }
    ensures { IfOk result (λ count. count ≤ numbers.end - numbers.start) }
{
    let mut count = 0;
    for i in numbers.start..numbers.end {
        if has_tree(i) {
            check(&Case::nth(i))?;
            count += 1;
        }
    }
    Ok(count)
}

// Hands the numbers of each part of the sequence, with its heading, to `check_part`, which writes on standard output.
pub fn check_parts<'a, R: Print + AllocGlobal, F>(rt: &'a R, mut check_part: F) -> io::Result<()>
where
    F: FnMut(&mut BufWriter<Printer<'a, R>>, Range<u64>, &[u8]) -> io::Result<()>,
    requires { F.IsAlwaysCallable check_part }
{
    let mut out = BufWriter::new(rt.alloc(), io::writer(rt))?;
    check_part(&mut out, 0..TREES, b"trees")?;
    check_part(&mut out, TREES..END, b"patterns of closed nodes")?;
    out.flush()
}
