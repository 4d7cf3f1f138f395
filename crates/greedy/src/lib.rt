// The greedy rule: each step takes the node where a cache saves most, and updates only the words that this cache changes.
#![tactic(auto)]

ghost use Rattle.std.specs.Prelude.{◌≡◌, ◌&&◌, [], suc, ◌+◌, ◌*◌, ◌-◌, ◌≤◌, ◌<◌, ◌^◌, leb, length};
ghost use Rattle.model.specs.File.{most_budget, tree_of, demand_of};
ghost use Rattle.model.specs.Bill.{cachable, total};
ghost use Rattle.model.specs.Calls.{GreedyCall};
ghost use Rattle.fields.specs.Table.{InFile};
ghost use Rattle.tree_file.specs.Refusals.{verdict_of};
ghost use Rattle.node_words.specs.Words.{node_words, distance_word, word_of, HasNode, NodeRoom, SiteRoom};
ghost use Rattle.greedy.specs.Words.{word_number, serving_distance_word, reach_word, marked_sites, saving_from, served_from, Wrote, DistancesStored, Current, Free, ServedTo, Serves, PassedFrom, Passes, Gathers, Relieves, SiteTaken, Weighed, Finds, Prepared};
ghost use Rattle.greedy.specs.Run.{GreedyRoom, Filled, GreedyWritten};

use fields::TreeFile;
use node_words::{WordName, distance_of, put, word_of};
use tree_file::{Refusal, Rule};
use units::{Distance, Flow, Total};

// The words of a node here besides its distance, which is word 0: the distance of its serving node, the cachable flow that
// reaches it, and a mark, 1 where the node is taken.
#[derive(Clone, Copy, PartialEq, Eq, Debug)]
enum Word {
    ServingDistance = 1,
    Reach = 2,
    Mark = 3,
}

impl WordName for Word {
    ghost number = { word_number };

    fn number(self) -> usize {
        self as usize
    }
}

// What a step finds: the open node that saves most as a cache, and how much it saves.
#[derive(Clone, Copy)]
struct Found {
    site: usize,
    saving: Total,
}

// ---- before the first step

// The total without any cache.
fn empty_total(file: &TreeFile, n: usize, words: &[u64]) -> Total
    requires { DistancesStored file.now n words.now }
    ensures { result.0 ≡ total (tree_of file.now) (demand_of file.now) [] }
{
    let mut sum = Total::ZERO;
    for v in 0..n {
        let price = file.flow(v) * distance_of(words, v);
        sum = sum + price;
    }
    sum
}

// Stores 0 in word `f` of each node.
fn clear(n: usize, f: Word, words: &mut [u64])
    requires { node_words * n ≤ length words.old }
    ensures { Wrote n (word_number f) (λ _. 0) n words.old words.new }
{
    for v in 0..n {
        put(words, v, f, 0);
    }
}

// Stores the cachable flow of each node's own client.
fn own_flows(file: &TreeFile, n: usize, words: &mut [u64])
    requires { NodeRoom file.now n words.old }
    ensures { Wrote n reach_word (cachable (demand_of file.now)) n words.old words.new }
{
    for v in 0..n {
        put(words, v, Word::Reach, file.cachable(v).0);
    }
}

// Adds the flow that reaches node `v` to that of its parent.
fn pass_on(file: &TreeFile, n: usize, words: &mut [u64], v: usize)
    requires site_room { SiteRoom file.now n words.old v }
    requires passed_from { PassedFrom file.now n (v + 1) words.old }
    ensures { Passes file.now n v words.old words.new }
{
    let up = file.parent(v);
    let here = Flow(word_of(words, v, Word::Reach));
    let reach = Flow(word_of(words, up, Word::Reach)) + here;
    put(words, up, Word::Reach, reach.0);
}

// Stores the flow that reaches each node where no node is taken, from the last node to the first.
fn gather(file: &TreeFile, n: usize, words: &mut [u64])
    requires { NodeRoom file.now n words.old }
    ensures { Gathers file.now n words.old words.new }
{
    own_flows(file, n, words);
    for v in (1..n).rev() {
        pass_on(file, n, words, v);
    }
}

// Stores the words of each node where no node is taken.
#[inline(always)]
fn prepare(file: &TreeFile, n: usize, words: &mut [u64])
    requires { NodeRoom file.now n words.old }
    ensures { Prepared file.now n words.old words.new }
{
    node_words::measure(file, n, words);
    clear(n, Word::ServingDistance, words);
    clear(n, Word::Mark, words);
    gather(file, n, words);
}

// ---- the node that saves most

// What a cache at `v` would save.
fn saving_of(words: &[u64], v: usize) -> Total
    requires has_node { HasNode words.now v }
    requires serving_distance_word_bound { (word_of words.now v serving_distance_word ≤ word_of words.now v distance_word) × (saving_from words.now v < 2 ^ 64) }
    ensures { result.0 ≡ saving_from words.now v }
{
    let served = Distance(word_of(words, v, Word::ServingDistance));
    let nearer = distance_of(words, v) - served;
    Flow(word_of(words, v, Word::Reach)) * nearer
}

// The open node that saves most, the smallest number on a tie; `None` if none saves.
fn search(file: &TreeFile, n: usize, words: &[u64]) -> Option<Found>
    requires node_room { NodeRoom file.now n words.now }
    requires weighed { Weighed n words.now }
    ensures { Finds (tree_of file.now) words.now n result }
{
    // no `max_by_key`: of equals it keeps the last, and here the first is asked for
    let mut found: Option<Found> = None;
    // what it saves, kept beside it
    let mut most = Total::ZERO;
    for v in 1..n {
        let saving = saving_of(words, v);
        if most.0 < saving.0 && file.is_open(v) {
            found = Some(Found { site: v, saving });
            most = saving;
        }
    }
    found
}

// ---- a node is taken

// With a cache at `x` its flow goes no farther up: takes it off the nodes above, up to the next cache.
fn relieve(file: &TreeFile, n: usize, words: &mut [u64], x: usize)
    requires { Current file.now n words.old × (0 < x) × (x < n) }
    ensures { Relieves file.now n x words.old words.new }
{
    let flow = Flow(word_of(words, x, Word::Reach));
    let mut v = x;
    // climbs to the parent; there is no index to count
    while v != 0 {
        let mark = word_of(words, v, Word::Mark);
        if mark == 1 {
            return;
        }
        v = file.parent(v);
        let left = Flow(word_of(words, v, Word::Reach)) - flow;
        put(words, v, Word::Reach, left.0);
    }
}

// The distance of the serving node of `v`: its own distance if it is marked, else that of its parent's serving node.
fn served_at(file: &TreeFile, words: &[u64], v: usize) -> Distance
    requires in_file { InFile file.now v }
    requires has_node { HasNode words.now v × HasNode words.now ((tree_of file.now).parent v) }
    ensures { result.0 ≡ served_from (tree_of file.now) words.now v }
{
    if word_of(words, v, Word::Mark) == 1 {
        return distance_of(words, v);
    }
    Distance(word_of(words, file.parent(v), Word::ServingDistance))
}

// Stores the distance of the serving node of each node from `x` on.
fn serve(file: &TreeFile, n: usize, words: &mut [u64], x: usize)
    requires distances_stored { DistancesStored file.now n words.old × (0 < x) × (x < n) }
    requires served_to { ServedTo file.now n x words.old }
    ensures { Serves file.now n words.old words.new }
{
    for v in x..n {
        let distance = served_at(file, words, v);
        put(words, v, Word::ServingDistance, distance.0);
    }
}

// Takes node `x`: less flow reaches the nodes above it, and nodes after it may have a nearer serving node.
fn take_site(file: &TreeFile, n: usize, words: &mut [u64], x: usize)
    requires { Current file.now n words.old × Free n x words.old }
    ensures { SiteTaken file.now n x words.old words.new }
{
    relieve(file, n, words, x);
    put(words, x, Word::Mark, 1);
    serve(file, n, words, x);
}

// ---- the run

// Writes the steps from step `b` on if no node saves: the same total, and node 0 for "none".
fn rest(b: usize, k: usize, total: Total, totals: &mut [u64], nodes: &mut [u16])
    requires { (b ≤ k) × (k ≤ most_budget) × (k + 1 ≤ length totals.old) × (k ≤ length nodes.old) }
    ensures { Filled b k total.0 totals.old nodes.old totals.new nodes.new }
{
    nodes[b..k].fill(0);
    totals[b + 1..k + 1].fill(total.0);
}

// Each of k steps takes the open node that saves most. If none saves, none will in a later step.
#[inline(always)]
fn take_sites(
    file: &TreeFile,
    n: usize,
    k: usize,
    words: &mut [u64],
    totals: &mut [u64],
    nodes: &mut [u16],
)
    requires greedy_room { GreedyRoom file.now n k words.old totals.old nodes.old }
    requires current { Current file.now n words.old × (marked_sites n words.old ≡ []) }
    ensures { GreedyWritten file.now n words.old totals.old nodes.old words.new totals.new nodes.new }
{
    let mut total = empty_total(file, n, words);
    totals[0] = total.0;
    for b in 0..k {
        let Some(found) = search(file, n, words) else {
            rest(b, k, total, totals, nodes);
            return;
        };
        take_site(file, n, words, found.site);
        nodes[b] = found.site as u16;
        total = total - found.saving;
        totals[b + 1] = total.0;
    }
}

// The greedy rule on an accepted file: k + 1 totals, and the nodes in the order taken, then zeros. It and the two functions that it
// calls are inlined, so that what they read of the file is kept across what they store.
#[inline(always)]
pub fn run(
    file: &TreeFile,
    n: usize,
    k: usize,
    words: &mut [u64],
    totals: &mut [u64],
    nodes: &mut [u16],
)
    requires { GreedyRoom file.now n k words.old totals.old nodes.old }
    ensures { GreedyWritten file.now n words.old totals.old nodes.old words.new totals.new nodes.new }
{
    prepare(file, n, words);
    take_sites(file, n, k, words, totals, nodes);
}

// ---- the call

// Rule 14: k + 1 totals, and k nodes.
pub fn buffers_long(k: usize, totals: usize, nodes: usize) -> bool
    requires { k ≤ most_budget }
    ensures { result ≡ (leb (suc k) totals && leb k nodes) }
{
    k + 1 <= totals && k <= nodes
}

// The rules about the file, 13 and 14, then the greedy rule; nothing is written before they all hold.
pub fn greedy(
    file: &[u8],
    scratch: &mut [u64],
    totals: &mut [u64],
    nodes: &mut [u16],
) -> Result<(), Refusal>
    ensures { GreedyCall file.now record { scratch = scratch.entry.now; totals = totals.old; nodes = nodes.old } (verdict_of result) record { scratch = scratch.exit.now; totals = totals.new; nodes = nodes.new } }
{
    let tree = lent::check(file, scratch.len())?;
    Rule::Buffers.ask(buffers_long(tree.budget, totals.len(), nodes.len()))?;
    run(
        &TreeFile::of(file),
        tree.nodes,
        tree.budget,
        scratch,
        totals,
        nodes,
    );
    Ok(())
}
