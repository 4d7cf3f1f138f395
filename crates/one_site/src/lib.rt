// With one node or without it: of the sets of at most b nodes, the least total of those that contain the node, and the least of
// those that don't, each from a table filled under the wish that the node is a cache, or that it is not.
#![tactic(auto)]

ghost use Rattle.std.specs.Prelude.{◌≡◌, ◌&&◌, ◌+◌, leb, ltb};
ghost use Rattle.laws.specs.Fronts.{FrontOnly};
ghost use Rattle.model.specs.File.{tree_of, demand_of};
ghost use Rattle.model.specs.Rules.{scratch_words};
ghost use Rattle.model.specs.Calls.{answer, least_is};
ghost use Rattle.model.specs.WithOrWithout.{both_least, LeastWhere, WithOrWithoutCall};
ghost use Rattle.best_rows.specs.Least.{running_min};
ghost use Rattle.best_rows.specs.Best.{cap};
ghost use Rattle.tree_file.specs.Checks.{answer_of, sizes_of};
ghost use Rattle.lent.specs.Lent.{LentRoom};
ghost use Rattle.lines.specs.Line.{entry_of};
ghost use Rattle.table.specs.Table.{TableRoom};
ghost use Rattle.one_site.specs.Site.{site_verdict, AskedSite, SomeSet};
ghost use Rattle.one_site.specs.Answers.{both_of, leasts_of};

use fields::{Tree, TreeFile};
use places::Place;
use table::{Table, Wish};
use tree_file::{Refusal, Rule};
use units::Total;

// The least total with the node, or none, where no set contains it, and the least total without it.
#[derive(Clone, Copy, PartialEq, Eq, Debug)]
pub struct Leasts {
    pub with: Option<Total>,
    pub without: Total,
}

// ---- one least total

// The least of entries 0 to b of a line; an entry past its end counts as the cap.
fn least_within(line: &[u64], b: usize) -> Total
    ensures { result.0 ≡ running_min cap (entry_of line.now) (b + 1) }
{
    let mut least = Total::CAP;
    for n in 0..=b {
        least = least.lesser(lines::entry(line, n));
    }
    least
}

// The least total of the sets of at most b nodes that contain the node (`cached`), or of those that don't, where there is one.
fn least_where(
    file: &TreeFile,
    s: &mut [u64],
    places: &[Place],
    node: usize,
    cached: bool,
    b: usize,
) -> Total
    requires table_room { TableRoom file.now places.now s.old }
    requires asked_site { AskedSite file.now node b }
    requires some_set { SomeSet (tree_of file.now) b node cached }
    ensures least_where { LeastWhere (tree_of file.now) (demand_of file.now) b node cached (least_is result.0) }
    ensures front_only { FrontOnly (scratch_words file.now) s.old s.new }
{
    table::make_table(file, s, places, Some(Wish { node, cached }));
    let table = Table { words: s, places };
    least_within(table.server_line(), b)
}

// ---- both

// Does a set of at most b nodes contain the node? The node has to be open, and b at least 1.
fn has_set(file: &TreeFile, node: usize, b: usize) -> bool
    requires { AskedSite file.now node b }
    ensures { result ≡ (leb 1 b && (tree_of file.now).is_open node) }
{
    1 <= b && file.is_open(node)
}

// The least totals with the node and without it; the latter alone where no set contains the node.
fn least_totals(file: &TreeFile, tree: Tree, node: usize, b: usize, scratch: &mut [u64]) -> Leasts
    requires lent_room { LentRoom file.now tree scratch.old }
    requires asked_site { AskedSite file.now node b }
    ensures result_value { both_of result ≡ both_least file.now node b }
    ensures front_only { FrontOnly (scratch_words file.now) scratch.old scratch.new }
{
    let mut places = [Place::NONE; Tree::NODES];
    places::note_places(file, tree, &mut places);
    let without = least_where(file, scratch, &places, node, false, b);
    if !has_set(file, node, b) {
        return Leasts {
            with: None,
            without,
        };
    }
    let with = least_where(file, scratch, &places, node, true, b);
    Leasts {
        with: Some(with),
        without,
    }
}

// ---- the call

// Rule 16: is the node from 1 to n − 1, and b at most k?
fn node_holds(n: usize, k: usize, node: usize, b: usize) -> bool
    ensures { result ≡ (leb 1 node && ltb node n && leb b k) }
{
    1 <= node && node < n && b <= k
}

// The rules about the file, then rule 16, then rule 13 of a scratch of `words` words; n, k and h where they hold.
pub fn check(file: &[u8], node: usize, b: usize, words: usize) -> Result<Tree, Refusal>
    ensures { answer_of result ≡ answer (site_verdict file.now node b words) (sizes_of file.now) }
{
    let tree = tree_file::check(file)?;
    Rule::Site.ask(node_holds(tree.nodes, tree.budget, node, b))?;
    Rule::Scratch.ask(lent::enough(&TreeFile::of(file), tree, words))?;
    Ok(tree)
}

// The least total of all sets of at most b nodes that contain the node, or none, and the least of those that don't.
pub fn with_or_without(
    file: &[u8],
    node: usize,
    b: usize,
    scratch: &mut [u64],
) -> Result<Leasts, Refusal>
    ensures { WithOrWithoutCall file.now node b scratch.old (leasts_of result) scratch.new }
{
    let tree = check(file, node, b, scratch.len())?;
    Ok(least_totals(&TreeFile::of(file), tree, node, b, scratch))
}
