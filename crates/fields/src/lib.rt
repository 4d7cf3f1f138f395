// The sizes of the tree file, its versions, the table of a record's fields, and a file with the readers that go by it.
#![tactic(auto)]

ghost use Rattle.std.specs.Prelude.{◌≡◌, ◌+◌, ◌*◌, ◌≤◌, ◌<◌, ◌^◌, List, ℕ, leb, length};
ghost use Rattle.model.specs.File.{number, most_nodes, header_length, version_of, count_of, budget_of, has_ratios, has_open_bytes, record_length, record_at, field_of, tree_of, demand_of};
ghost use Rattle.model.specs.Bill.{whole, cachable};
ghost use Rattle.fields.specs.Table.{row_of, row_number, field_at, HasField, InFile};

use std::marker::Model;
use units::{Distance, Flow};

// What an accepted file says of its tree: n, k and h. The associated constants are the tree file's versions, sizes and places.
#[derive(Clone, Copy)]
pub struct Tree {
    pub nodes: usize,
    pub budget: usize,
    pub height: usize,
}

// Which field of a record, and so which row of the table.
#[derive(Clone, Copy, PartialEq, Eq, Debug)]
pub enum FieldName {
    Parent,
    Length,
    Flow,
    Hit,
    Cachable,
    Open,
}

// A row of the table: where a field stands in its record, how many bytes it has, and its largest value.
#[derive(Clone, Copy)]
pub struct Field {
    pub offset: usize,
    pub width: usize,
    pub most: u64,
}

impl Tree {
    pub const NODES: usize = 1_024;

    pub const BUDGET: usize = 32;

    pub const DEPTH: usize = 32;

    pub const LENGTH: u64 = 1_000;

    pub const FLOW: u64 = 100_000_000;

    pub const HIT: u64 = 1_000;

    // A version stays a number, since a file is read before rule 3 asks it:
    // version 1 has a hit ratio for each client, version 2 cachable bytes, version 3 also a last byte in each record
    pub const FIRST_VERSION: u64 = 1;

    pub const THIRD_VERSION: u64 = 3;

    pub const HEADER: usize = 9;

    // where the version, n and k stand
    const VERSION_AT: usize = 3;

    const NODES_AT: usize = 5;

    const BUDGET_AT: usize = 7;

    // the bytes of a record in versions 1, 2 and 3
    const RATIO_RECORD: usize = 10;

    const BYTES_RECORD: usize = 12;

    const OPEN_RECORD: usize = 13;

    // the rows in the order of `FieldName`
    pub const FIELDS: [Field; 6] = [
        Field {
            offset: 0,
            width: 2,
            most: Tree::NODES as u64 - 1,
        },
        Field {
            offset: 2,
            width: 2,
            most: Tree::LENGTH,
        },
        Field {
            offset: 4,
            width: 4,
            most: Tree::FLOW,
        },
        Field {
            offset: 8,
            width: 2,
            most: Tree::HIT,
        },
        Field {
            offset: 8,
            width: 4,
            most: Tree::FLOW,
        },
        Field {
            offset: 12,
            width: 1,
            most: 1,
        },
    ];
}

impl FieldName {
    // Which row it is.
    fn row(self) -> usize
        ensures { result ≡ row_number self }
    {
        self as usize
    }
}

// The row of field `f` in the table.
pub fn row_of(f: FieldName) -> Field
    ensures { row_of result ≡ field_at f }
{
    Tree::FIELDS[f.row()]
}

// The number in `width` bytes from `at` on, most significant byte first.
pub fn number_at(file: &[u8], at: usize, width: usize) -> u64
    requires { (width ≤ 4) × (at + width ≤ length file.now) }
    ensures value { result ≡ number width file.now at }
    ensures upper_bound { result < 256 ^ width }
{
    let mut value: u64 = 0;
    for byte in &file[at..at + width] {
        value = value * 256 + u64::from(*byte);
    }
    value
}

// How many bytes a record of a version has.
fn record_length(version: u64) -> usize
    ensures { (file : List ℕ) → version_of file ≡ version → result ≡ record_length file }
{
    if version == Tree::FIRST_VERSION {
        return Tree::RATIO_RECORD;
    }
    if version == Tree::THIRD_VERSION {
        return Tree::OPEN_RECORD;
    }
    Tree::BYTES_RECORD
}

// A file with a whole header, and how many bytes each of its records has, which is worked out once. Contracts see its bytes.
#[derive(Drop)]
pub struct TreeFile<'a> {
    bytes: &'a [u8],
    size: usize,
}

impl<'a> Model for TreeFile<'a> {
    ghost use Rattle.std.specs.Prelude.{List, ℕ, ◌≡◌, ◌≤◌, length};
    ghost use Rattle.model.specs.File.{header_length, record_length};

    ghost Value = { List ℕ };

    ghost view = { λ f. f.bytes.now };

    ghost invariant = { λ f. (header_length ≤ length f.bytes.now) × (f.size ≡ record_length f.bytes.now) };
}

impl<'a> TreeFile<'a> {
    pub fn of(bytes: &'a [u8]) -> TreeFile<'a>
        requires { header_length ≤ length bytes.now }
        ensures { result ≡ bytes.entry.now }
    {
        let version = number_at(bytes, Tree::VERSION_AT, 2);
        TreeFile {
            bytes,
            size: record_length(version),
        }
    }

    // ---- the header

    pub fn version(&self) -> u64
        ensures { result ≡ version_of self.now }
    {
        number_at(self.bytes, Tree::VERSION_AT, 2)
    }

    // n, the number of nodes.
    pub fn count(&self) -> usize
        ensures { result ≡ count_of self.now }
    {
        number_at(self.bytes, Tree::NODES_AT, 2) as usize
    }

    // k, the budget.
    pub fn budget(&self) -> usize
        ensures { result ≡ budget_of self.now }
    {
        number_at(self.bytes, Tree::BUDGET_AT, 2) as usize
    }

    // Is the file of version 1?
    pub fn has_ratios(&self) -> bool
        ensures { result ≡ has_ratios self.now }
    {
        self.version() == Tree::FIRST_VERSION
    }

    // Is it of version 3?
    pub fn has_open_bytes(&self) -> bool
        ensures { result ≡ has_open_bytes self.now }
    {
        self.version() == Tree::THIRD_VERSION
    }

    // ---- records

    // How many bytes a record has.
    pub fn record_length(&self) -> usize
        ensures { result ≡ record_length self.now }
    {
        self.size
    }

    // Where the record of node `v` begins.
    pub fn record_at(&self, v: usize) -> usize
        requires { v ≤ most_nodes }
        ensures { result ≡ record_at self.now v }
    {
        Tree::HEADER + self.size * v
    }

    // Field `f` of the record of node `v`.
    pub fn field(&self, f: FieldName, v: usize) -> u64
        requires has_field { HasField self.now f }
        requires in_file { InFile self.now v }
        ensures value { result ≡ field_of self.now (field_at f) v }
        ensures upper_bound { result < 2 ^ 32 }
    {
        let row = row_of(f);
        let at = Tree::HEADER + self.size * v + row.offset;
        number_at(self.bytes, at, row.width)
    }

    // Is field `f` of the record of node `v` at most its largest value?
    pub fn is_within(&self, f: FieldName, v: usize) -> bool
        requires has_field { HasField self.now f }
        requires in_file { InFile self.now v }
        ensures { result ≡ leb (field_of self.now (field_at f) v) (field_at f).most }
    {
        let row = row_of(f);
        self.field(f, v) <= row.most
    }

    pub fn parent(&self, v: usize) -> usize
        requires { InFile self.now v }
        ensures { result ≡ (tree_of self.now).parent v }
    {
        self.field(FieldName::Parent, v) as usize
    }

    // The length of the link to the parent.
    pub fn link_length(&self, v: usize) -> Distance
        requires { InFile self.now v }
        ensures { result.0 ≡ (tree_of self.now).link_length v }
    {
        Distance(self.field(FieldName::Length, v))
    }

    // All that the client at v asks for.
    pub fn flow(&self, v: usize) -> Flow
        requires { InFile self.now v }
        ensures { result.0 ≡ whole (demand_of self.now) v }
    {
        Flow(self.field(FieldName::Flow, v) * Flow::WHOLE)
    }

    // The part of it that a cache can serve: only version 1 has records of ten bytes.
    pub fn cachable(&self, v: usize) -> Flow
        requires { InFile self.now v }
        ensures { result.0 ≡ cachable (demand_of self.now) v }
    {
        if self.size == Tree::RATIO_RECORD {
            return Flow(self.field(FieldName::Flow, v) * self.field(FieldName::Hit, v));
        }
        Flow(Flow::WHOLE * self.field(FieldName::Cachable, v))
    }

    // May a cache stand at v? Only version 3 has records of thirteen bytes, and the others count as open throughout.
    pub fn is_open(&self, v: usize) -> bool
        requires { InFile self.now v }
        ensures { result ≡ (tree_of self.now).is_open v }
    {
        if self.size == Tree::OPEN_RECORD {
            return self.field(FieldName::Open, v) == 1;
        }
        true
    }
}
