// Trees of at most six nodes with their files, and sets of their nodes.
//
// Nothing here is shared with the planner.
#![tactic(auto)]

ghost use Rattle.std.specs.Iterator.{UpTo};
ghost use Rattle.std.specs.Prelude.{◌≡◌, ◌+◌, ◌*◌, ◌≤◌, bit_and, bit_or, length};

use std::iter;
use std::ops::{BitAnd, BitOr, Range};

// What a tree file says of a node. The share of its flow that a cache can serve is a hit ratio in thousandths in version 1,
// and cachable bytes from version 2 on. A node is open where a cache may stand there: in versions 1 and 2 each node is.
#[derive(Clone, Copy, Default)]
pub struct Record {
    pub parent: u16,
    pub length: u16,
    pub flow: u32,
    pub share: u32,
    pub open: bool,
}

// A tree and the version of its file, with zeros for the nodes that it lacks.
#[derive(Clone, Copy)]
pub struct SmallTree {
    pub version: u16,
    pub nodes: usize,
    pub budget: usize,
    records: [Record; 6],
}

impl SmallTree {
    // A tree whose records are still to come.
    pub fn bare(version: u16, nodes: usize, budget: usize) -> SmallTree {
        SmallTree {
            version,
            nodes,
            budget,
            records: [Record::default(); 6],
        }
    }

    // The tree with this record for node v.
    pub fn with_record(mut self, v: usize, record: Record) -> SmallTree {
        if v < 6 {
            self.records[v] = record;
        }
        self
    }

    // Are the shares hit ratios?
    pub fn has_ratios(&self) -> bool {
        self.version == 1
    }

    // The tree's budget, at most 6.
    pub fn budget_within_six(&self) -> usize
        ensures { result ≤ 6 }
    {
        self.budget.min(6)
    }

    // What the tree says of node v.
    pub fn record(&self, v: usize) -> Record {
        self.records.get(v).copied().unwrap_or_default()
    }

    // The parent of v, 0 of the server.
    pub fn parent(&self, v: usize) -> usize {
        usize::from(self.record(v).parent)
    }

    // The nodes on the route of c: itself, its parent, and so on to the server.
    pub fn route(&self, c: usize) -> Nodes {
        let mut way = Nodes::only(0);
        let mut v = c;
        for _ in 0..5 {
            way = way.with(v);
            v = self.parent(v);
        }
        way
    }
}

// ---- sets

// A set of nodes: a mask with bit v for node v.
#[derive(Clone, Copy, PartialEq, Eq, Debug)]
pub struct Nodes(pub u8);

impl Nodes {
    pub const NONE: Nodes = Nodes(0);

    // The set of one node.
    pub fn only(v: usize) -> Nodes {
        if v < 6 { Nodes(1 << v) } else { Nodes::NONE }
    }

    // The set of a row: its numbers other than 0.
    pub fn of_row(row: &[u16]) -> Nodes {
        row.iter()
            .filter(|v| **v != 0)
            .fold(Nodes::NONE, |set, v| set.with(usize::from(*v)))
    }

    // Is v in the set?
    pub fn has(self, v: usize) -> bool {
        self & Nodes::only(v) != Nodes::NONE
    }

    // The set with one node more.
    pub fn with(self, v: usize) -> Nodes {
        self | Nodes::only(v)
    }

    // How many nodes a set has.
    pub fn size(self) -> usize
        ensures { result ≤ 6 }
    {
        self.members().count()
    }

    // The members in ascending order.
    pub fn members(self) -> Members
        ensures { UpTo (⟦<Members as Iterator>⟧.remaining result) 6 }
    {
        Members {
            set: self,
            rest: 0..6,
        }
    }

    // Writes the members, ascending and as many as fit, at the start of `out`, and answers how many there are.
    pub fn write(self, out: &mut [u16]) -> usize
        ensures { result ≤ length out.new }
    {
        let end = self.size().min(out.len());
        for (entry, v) in out[..end].iter_mut().zip(self.members()) {
            *entry = v;
        }
        end
    }

    // Are the first k entries of a row the members, ascending, and then zeros?
    pub fn is_row(self, row: &[u16], k: usize) -> bool {
        k <= row.len()
            && row[..k]
                .iter()
                .zip(self.members().chain(iter::repeat(0)))
                .all(|(entry, v)| *entry == v)
    }
}

impl BitAnd for Nodes {
    type Output = Nodes;

    ghost bitand_gives = { λ a b r. r.0 ≡ bit_and a.0 b.0 };

    fn bitand(self, rhs: Nodes) -> Nodes {
        Nodes(self.0 & rhs.0)
    }
}

impl BitOr for Nodes {
    type Output = Nodes;

    ghost bitor_gives = { λ a b r. r.0 ≡ bit_or a.0 b.0 };

    fn bitor(self, rhs: Nodes) -> Nodes {
        Nodes(self.0 | rhs.0)
    }
}

// Goes over the members of a set: those of its nodes that are still to come.
#[derive(Drop)]
pub struct Members {
    set: Nodes,
    rest: Range<u16>,
}

impl Iterator for Members {
    type Item = u16;

    ghost can_next = { λ s. ⟦<Range<u16> as Iterator>⟧.can_next s.rest };

    ghost remaining = { λ s. ⟦<Range<u16> as Iterator>⟧.remaining s.rest };

    fn next(&mut self) -> Option<u16> {
        let set = self.set;
        self.rest.find(|v| set.has(usize::from(*v)))
    }
}

// ---- the tree file

// The bytes of a file from `at` on, zeros past its end.
fn bytes<const N: usize>(file: &[u8], at: usize) -> [u8; N] {
    let mut bytes = [0; N];
    for (byte, of_file) in bytes.iter_mut().zip(file.iter().skip(at)) {
        *byte = *of_file;
    }
    bytes
}

// Where the record of node v begins: a record has ten bytes in version 1, twelve in version 2 and thirteen in version 3.
fn record_at(version: u16, v: usize) -> usize
    requires { v ≤ 6 }
    ensures { result ≤ 9 + 13 * v }
{
    let size = match version {
        1 => 10,
        2 => 12,
        _ => 13,
    };
    9 + size * v
}

impl Record {
    // What the record says that begins at `at`, zeros past the end of the file.
    fn of_file(file: &[u8], version: u16, at: usize) -> Record
        requires { at ≤ 87 }
    {
        Record {
            parent: u16::from_be_bytes(bytes(file, at)),
            length: u16::from_be_bytes(bytes(file, at + 2)),
            flow: u32::from_be_bytes(bytes(file, at + 4)),
            share: if version == 1 {
                u32::from(u16::from_be_bytes(bytes(file, at + 8)))
            } else {
                u32::from_be_bytes(bytes(file, at + 8))
            },
            open: version < 3 || bytes(file, at + 12) == [1u8],
        }
    }

    // The thirteen bytes of a record of version 3; one of version 2 has all but the last.
    fn bytes(&self) -> [u8; 13] {
        let mut bytes = [0; 13];
        bytes[..2].copy_from_slice(&self.parent.to_be_bytes());
        bytes[2..4].copy_from_slice(&self.length.to_be_bytes());
        bytes[4..8].copy_from_slice(&self.flow.to_be_bytes());
        bytes[8..12].copy_from_slice(&self.share.to_be_bytes());
        bytes[12] = u8::from(self.open);
        bytes
    }
}

impl SmallTree {
    // The tree of an accepted file of at most six nodes.
    pub fn of_file(file: &[u8]) -> SmallTree {
        let version = u16::from_be_bytes(bytes(file, 3));
        let nodes = u16::from_be_bytes(bytes(file, 5));
        let budget = u16::from_be_bytes(bytes(file, 7));
        let mut tree = SmallTree::bare(version, usize::from(nodes), usize::from(budget));
        for (v, record) in tree.records.iter_mut().enumerate() {
            *record = Record::of_file(file, version, record_at(version, v));
        }
        tree
    }

    // The bytes of the tree's file, and of the records of all six nodes.
    fn bytes(&self) -> [u8; 87] {
        let mut bytes = [0; 87];
        bytes[..3].copy_from_slice(b"KTR");
        bytes[3..5].copy_from_slice(&self.version.to_be_bytes());
        bytes[5..7].copy_from_slice(&((self.nodes % 65536) as u16).to_be_bytes());
        bytes[7..9].copy_from_slice(&((self.budget % 65536) as u16).to_be_bytes());
        for (v, record) in self.records.iter().enumerate() {
            let at = record_at(self.version, v);
            let record = record.bytes();
            match self.version {
                1 => {
                    bytes[at..at + 8].copy_from_slice(&record[..8]);
                    bytes[at + 8..at + 10].copy_from_slice(&record[10..12]);
                }
                2 => bytes[at..at + 12].copy_from_slice(&record[..12]),
                _ => bytes[at..at + 13].copy_from_slice(&record),
            }
        }
        bytes
    }

    // The size of the tree's file, at most 87 bytes.
    fn file_size(&self) -> usize
        ensures { result ≤ 87 }
    {
        if self.nodes <= 6 {
            record_at(self.version, self.nodes)
        } else {
            87
        }
    }

    // Writes the tree's file, as much as fits, at the start of `out`, and answers how many bytes there are.
    pub fn write_file(&self, out: &mut [u8]) -> usize
        ensures { result ≤ length out.new }
    {
        let end = self.file_size().min(out.len());
        out[..end].copy_from_slice(&self.bytes()[..end]);
        end
    }
}
