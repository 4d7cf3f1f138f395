// The check of a tree file by the rules about the file itself, 1 to 11, 17 and 24; the record of a node; the check for a C host.
#![tactic(auto)]

ghost use Rattle.std.specs.Prelude.{◌≡◌, true, false, cond, ◌≤◌, leb, length};
ghost use Rattle.std.specs.Borrow.{u8};
ghost use Rattle.laws.specs.Lists.{has};
ghost use Rattle.laws.specs.Slices.{PartOf};
ghost use Rattle.model.specs.File.{header_length, count_of, has_ratios, has_open_bytes, record_length, record_at, flow_field, cachable_field, open_field, field_of, tree_of, demand_of};
ghost use Rattle.model.specs.Tree.{route, depth, height};
ghost use Rattle.model.specs.Rules.{◌then◌, ask_share, ask_open, passed, marked, parent_holds, length_holds, record_verdict, records_verdict, file_verdict};
ghost use Rattle.model.specs.Calls.{answer, check_number, record_bytes};
ghost use Rattle.model.specs.Hosts.{record_place};
ghost use Rattle.fields.specs.Table.{InFile};
ghost use Rattle.tree_file.specs.Refusals.{verdict_of};
ghost use Rattle.tree_file.specs.Checks.{answer_of, sizes_of, Climbable, DepthsTo, NextRecord, RecordsThere};
ghost use Rattle.tree_file.specs.Places.{RecordHandedBack};

mod rules;

use fields::{FieldName, Tree, TreeFile};
pub use rules::{Refusal, Rule};

// ---- routes and depths, by the file's own parents

// Is a on the route of v?
fn on_route(file: &TreeFile, v: usize, a: usize) -> bool
    requires { Climbable file.now v }
    ensures { result ≡ has (route (tree_of file.now) v) a }
{
    let mut x = v;
    // climbs to the parent; there is no index to count
    while x != a {
        if x == 0 {
            return false;
        }
        x = file.parent(x);
    }
    true
}

// Links from v to the server, one more than its parent has.
fn depth_of(file: &TreeFile, depths: &[usize], v: usize) -> usize
    requires climbable { Climbable file.now v }
    requires depths_to { DepthsTo (tree_of file.now) depths.now v }
    ensures { result ≡ depth (tree_of file.now) v }
{
    if v == 0 {
        return 0;
    }
    let parent = file.parent(v);
    depths[parent] + 1
}

// ---- rules 7 to 11, 17 and 24, record by record

// Rule 7.
fn parent_holds(file: &TreeFile, i: usize) -> bool
    requires { NextRecord file.now i }
    ensures { result ≡ parent_holds (tree_of file.now) i }
{
    let parent = file.parent(i);
    if i == 0 {
        return parent == 0;
    }
    on_route(file, i - 1, parent)
}

// Rule 9.
fn length_holds(file: &TreeFile, i: usize) -> bool
    requires { InFile file.now i }
    ensures { result ≡ length_holds (tree_of file.now) i }
{
    if i == 0 {
        return file.field(FieldName::Length, i) == 0;
    }
    file.is_within(FieldName::Length, i)
}

// Rule 17.
fn cachable_holds(file: &TreeFile, i: usize) -> bool
    requires file_value { has_ratios file.now ≡ false }
    requires in_file { InFile file.now i }
    ensures { result ≡ leb (field_of file.now cachable_field i) (field_of file.now flow_field i) }
{
    let flow = file.field(FieldName::Flow, i);
    file.field(FieldName::Cachable, i) <= flow
}

// Rule 24: only version 3 has the byte, and the others pass.
fn open_holds(file: &TreeFile, i: usize) -> bool
    requires { InFile file.now i }
    ensures { result ≡ cond (has_open_bytes file.now) (leb (field_of file.now open_field i) open_field.most) true }
{
    if file.has_open_bytes() {
        return file.is_within(FieldName::Open, i);
    }
    true
}

// The rules of record i past 10: 11 in version 1, else 17 and then 24.
fn last_ruling(file: &TreeFile, i: usize) -> Result<(), Refusal>
    requires { InFile file.now i }
    ensures { verdict_of result ≡ (ask_share i ((demand_of file.now).flow i) ((demand_of file.now).share i) then ask_open file.now i) }
{
    let record = i as u16;
    if file.has_ratios() {
        return Rule::Hit.ask_of(record, file.is_within(FieldName::Hit, i));
    }
    Rule::Cachable.ask_of(record, cachable_holds(file, i))?;
    Rule::Open.ask_of(record, open_holds(file, i))
}

// The rules of record i, where they hold of the records before it and their depths are kept.
fn record_ruling(file: &TreeFile, depths: &[usize], i: usize) -> Result<(), Refusal>
    requires next_record { NextRecord file.now i }
    requires depths_to { DepthsTo (tree_of file.now) depths.now i }
    ensures { verdict_of result ≡ record_verdict file.now i }
{
    let record = i as u16;
    Rule::Parent.ask_of(record, parent_holds(file, i))?;
    Rule::Depth.ask_of(record, depth_of(file, depths, i) <= Tree::DEPTH)?;
    Rule::Length.ask_of(record, length_holds(file, i))?;
    Rule::Flow.ask_of(record, file.is_within(FieldName::Flow, i))?;
    last_ruling(file, i)
}

// Each of the first n records through its rules before the next.
fn records_ruling(file: &TreeFile, n: usize) -> Result<(), Refusal>
    requires { RecordsThere file.now n }
    ensures { verdict_of result ≡ records_verdict file.now n }
{
    let mut depths = [0usize; Tree::NODES];
    for i in 0..n {
        record_ruling(file, &depths, i)?;
        depths[i] = depth_of(file, &depths, i);
    }
    Ok(())
}

// ---- the rules about the file itself

// Rule 2.
fn is_marked(file: &[u8]) -> bool
    ensures { result ≡ marked file.now }
{
    file.starts_with(b"KTR")
}

// The rules about the file: 1 to 10, then 11 in version 1, 17 in version 2, and 17 and 24 in version 3.
pub fn file_ruling(file: &[u8]) -> Result<(), Refusal>
    ensures { verdict_of result ≡ file_verdict file.now }
{
    let length = file.len();
    Rule::Header.ask(Tree::HEADER <= length)?;
    Rule::Mark.ask(is_marked(file))?;
    let file = TreeFile::of(file);
    let version = file.version();
    Rule::Version.ask(Tree::FIRST_VERSION <= version)?;
    Rule::Version.ask(version <= Tree::THIRD_VERSION)?;
    let n = file.count();
    Rule::Nodes.ask(1 <= n)?;
    Rule::Nodes.ask(n <= Tree::NODES)?;
    Rule::Budget.ask(file.budget() <= Tree::BUDGET)?;
    Rule::Size.ask(length == file.record_at(n))?;
    records_ruling(&file, n)
}

// h, the greatest depth of an accepted file.
fn height_of(file: &TreeFile) -> usize
    requires { file_verdict file.now ≡ passed }
    ensures { result ≡ height (tree_of file.now) }
{
    // an array of its own, so that calls that only rule on a file do not pay for it
    let mut depths = [0usize; Tree::NODES];
    let mut tallest = 0;
    for v in 0..file.count() {
        let depth = depth_of(file, &depths, v);
        depths[v] = depth;
        tallest = depth.max(tallest);
    }
    tallest
}

// The rules about the file, and n, k and h of an accepted one.
pub fn check(file: &[u8]) -> Result<Tree, Refusal>
    ensures { answer_of result ≡ answer (file_verdict file.now) (sizes_of file.now) }
{
    file_ruling(file)?;
    let file = TreeFile::of(file);
    let nodes = file.count();
    let budget = file.budget();
    let height = height_of(&file);
    Ok(Tree {
        nodes,
        budget,
        height,
    })
}

// ---- services

// The bytes of node v inside the caller's file.
fn record_part(file: &[u8], v: usize) -> &[u8]
    requires { InFile file.now v }
    ensures { PartOf u8 file.entry (record_at file.now v) (record_length file.now) result }
{
    let records = TreeFile::of(file);
    let start = records.record_at(v);
    let end = start + records.record_length();
    &file[start..end]
}

// The place of node v's record in the file, counted in bytes from 0; 0 for none, if the file is refused or v is not below n.
pub fn record_place(file: &[u8], v: usize) -> usize
    ensures { result ≡ record_place file.now v }
{
    match file_ruling(file) {
        Ok(()) => {
            let file = TreeFile::of(file);
            if file.count() <= v {
                return 0;
            }
            file.record_at(v)
        }
        Err(_) => 0,
    }
}

// The record of node v inside the caller's file, empty if the file is refused or v is not below n.
pub fn record_of(file: &[u8], v: usize) -> &[u8]
    ensures result_value { result.now ≡ record_bytes file.now v }
    ensures record_handed_back { RecordHandedBack file.entry v result }
{
    match file_ruling(file) {
        Ok(()) => {
            if TreeFile::of(file).count() <= v {
                return &file[..0];
            }
            record_part(file, v)
        }
        // the scope asks for an empty record here, and for no Option
        Err(_) => &file[..0],
    }
}

// For a C host: 0, or the number of the first broken rule about the file.
pub fn kterc_check(file: &[u8]) -> u32
    ensures { result ≡ check_number file.now }
{
    match file_ruling(file) {
        Ok(()) => 0,
        Err(refusal) => {
            let number = refusal.rule.number();
            u32::from(number)
        }
    }
}
