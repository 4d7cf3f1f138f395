// The ranking of two sets by total, then in the order of ties, and the one of them that ranks first.
#![tactic(auto)]

ghost use Rattle.std.specs.Prelude.{◌≡◌, ◌-◌, take};
ghost use Rattle.laws.specs.Lists.{range};
ghost use Rattle.model.specs.File.{tree_of, demand_of, count_of};
ghost use Rattle.model.specs.Ties.{visits, ranks_before};
ghost use Rattle.model.specs.Calls.{ranking, winner};
ghost use Rattle.placement.specs.Passes.{Billable};
ghost use Rattle.compare.specs.Counting.{Counted, Countable, Comparable};
ghost use Rattle.compare.specs.Answers.{ranking_of, WinnerHandedBack};

use fields::{Tree, TreeFile};
use std::cmp::Ordering;
use tree_file::{Refusal, Rule};

// Which of two sets ranks first.
#[derive(Clone, Copy, PartialEq, Eq, Debug)]
pub enum Ranking {
    First,
    Second,
}

// ---- members at or below each node

// Counts every member at itself and at every site above it, where none is counted yet.
fn count_members(file: &TreeFile, set: &[u16], counts: &mut [u16])
    requires countable { Countable file.now set.now counts.old }
    requires counted { Counted (tree_of file.now) (take 0 set.now) counts.old }
    ensures { Counted (tree_of file.now) set.now counts.new }
{
    for member in set {
        let mut w = usize::from(*member);
        // Climbs to the parent; there is no index to count.
        while w != 0 {
            counts[w] += 1;
            w = file.parent(w);
        }
    }
}

// ---- the order of ties

// Does the first set come before the second where nodes 1, 2, .. are visited? More members at or below come first, then
// the set without the node itself.
fn visited_before(
    file: &TreeFile,
    first: &[u16],
    second: &[u16],
    counts: &[u16],
    others: &[u16],
) -> bool
    requires { Comparable file.now first.now second.now counts.now others.now }
    ensures { result ≡ visits (tree_of file.now) first.now second.now (range 1 (count_of file.now - 1)) }
{
    let mut left = first;
    let mut other_left = second;
    for v in 1..file.count() {
        if counts[v] != others[v] {
            return others[v] < counts[v];
        }
        let mine = placement::take_member(&mut left, v);
        let theirs = placement::take_member(&mut other_left, v);
        if mine != theirs {
            return theirs;
        }
    }
    false
}

// Does the first set rank before the second? The least total, then the fewest nodes, then the visit.
fn ranks_before(file: &TreeFile, n: usize, first: &[u16], second: &[u16]) -> bool
    requires { Billable file.now n first.now × Billable file.now n second.now }
    ensures { result ≡ ranks_before (tree_of file.now) (demand_of file.now) first.now second.now }
{
    let mine = placement::total_of(file, n, first);
    let theirs = placement::total_of(file, n, second);
    match mine.cmp(&theirs).then(first.len().cmp(&second.len())) {
        Ordering::Less => true,
        Ordering::Greater => false,
        Ordering::Equal => {
            let mut counts = [0u16; Tree::NODES];
            let mut others = [0u16; Tree::NODES];
            count_members(file, first, &mut counts);
            count_members(file, second, &mut others);
            visited_before(file, first, second, &counts, &others)
        }
    }
}

// ---- the calls

// Which of two sets ranks first? The rules about the file, then rule 12 for the first set and for the second. Equal sets: first.
pub fn rank(file: &[u8], first: &[u16], second: &[u16]) -> Result<Ranking, Refusal>
    ensures { ranking_of result ≡ ranking file.now first.now second.now }
{
    tree_file::file_ruling(file)?;
    let file = TreeFile::of(file);
    let n = file.count();
    Rule::Set.ask(placement::is_set(&file, n, first))?;
    Rule::Set.ask(placement::is_set(&file, n, second))?;
    if ranks_before(&file, n, second, first) {
        return Ok(Ranking::Second);
    }
    Ok(Ranking::First)
}

// The set that ranks first, empty on refusal. An empty set that wins and a refusal look alike here; `rank` distinguishes
// them.
pub fn winner<'a>(file: &[u8], first: &'a [u16], second: &'a [u16]) -> &'a [u16]
    ensures result_value { result.now ≡ winner file.now first.now second.now }
    ensures winner_handed_back { WinnerHandedBack (ranking file.now first.now second.now) first.entry second.entry result }
{
    match rank(file, first, second) {
        Ok(Ranking::First) => first,
        Ok(Ranking::Second) => second,
        // Document 01 asks for an empty slice here, and no Option.
        Err(_) => &first[..0],
    }
}
