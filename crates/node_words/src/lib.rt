// The four words that the scratch holds of each node, worked out from an accepted file, and their readers.
#![tactic(auto)]

ghost use Rattle.std.specs.Prelude.{◌≡◌, ◌+◌, ◌*◌, ◌-◌, ◌≤◌, ◌<◌, ℕ, length, set};
ghost use Rattle.laws.specs.Fronts.{FrontOnly};
ghost use Rattle.model.specs.File.{tree_of};
ghost use Rattle.node_words.specs.Words.{node_words, word_at, distance_word, depth_word, child_word, sibling_word, word_of, word_number, HasNode, NodeRoom, SiteRoom, NodeWords, Measured, Unlinked, Linked, LinksOnly};

use fields::TreeFile;
use units::Distance;

// How many words the scratch holds of each node.
pub const NODE_WORDS: usize = 4;

// A name for each of the words of a node.
pub trait WordName: Copy {
    ghost number: { Self → ℕ };

    // Which of them it is.
    fn number(self) -> usize
        ensures value { result ≡ number self }
        ensures upper_bound { result < node_words };
}

// Here they are its distance to the server, its depth, its first child and its next sibling.
#[derive(Clone, Copy, PartialEq, Eq, Debug)]
enum Word {
    Distance,
    Depth,
    Child,
    Sibling,
}

impl WordName for Word {
    ghost number = { word_number };

    fn number(self) -> usize {
        self as usize
    }
}

// Reads word `f` of node `v`.
pub fn word_of<W: WordName>(words: &[u64], v: usize, f: W) -> u64
    requires { HasNode words.now v }
    ensures { result ≡ word_of words.now v (W.number f) }
{
    words[NODE_WORDS * v + f.number()]
}

// Stores word `f` of node `v`.
pub fn put<W: WordName>(words: &mut [u64], v: usize, f: W, value: u64)
    requires { HasNode words.old v }
    ensures { words.new ≡ set words.old (word_at v (W.number f)) value }
{
    words[NODE_WORDS * v + f.number()] = value;
}

pub fn distance_of(words: &[u64], v: usize) -> Distance
    requires { HasNode words.now v }
    ensures { result.0 ≡ word_of words.now v distance_word }
{
    Distance(word_of(words, v, Word::Distance))
}

pub fn depth_word(words: &[u64], v: usize) -> usize
    requires { HasNode words.now v }
    ensures { result ≡ word_of words.now v depth_word }
{
    word_of(words, v, Word::Depth) as usize
}

// The first child, 0 if there is none: node 0 is no child, and the table has a line of its own for the empty row.
pub fn child_of(words: &[u64], v: usize) -> usize
    requires { HasNode words.now v }
    ensures { result ≡ word_of words.now v child_word }
{
    word_of(words, v, Word::Child) as usize
}

// The next sibling, 0 if there is none.
pub fn sibling_of(words: &[u64], v: usize) -> usize
    requires { HasNode words.now v }
    ensures { result ≡ word_of words.now v sibling_word }
{
    word_of(words, v, Word::Sibling) as usize
}

// ---- distances and depths, from the server down

// Stores the distance and the depth of node `v`, from those of its parent.
fn measure_node(file: &TreeFile, n: usize, v: usize, words: &mut [u64])
    requires site_room { SiteRoom file.now n words.old v }
    requires measured { Measured (tree_of file.now) words.old v }
    ensures measured_2 { Measured (tree_of file.now) words.new (v + 1) }
    ensures front_only { FrontOnly (node_words * n) words.old words.new }
{
    let up = file.parent(v);
    let distance = distance_of(words, up) + file.link_length(v);
    let depth = word_of(words, up, Word::Depth) + 1;
    put(words, v, Word::Distance, distance.0);
    put(words, v, Word::Depth, depth);
}

// Stores the distance and the depth of each node.
pub fn measure(file: &TreeFile, n: usize, words: &mut [u64])
    requires { NodeRoom file.now n words.old }
    ensures measured { Measured (tree_of file.now) words.new n }
    ensures front_only { FrontOnly (node_words * n) words.old words.new }
{
    put(words, 0, Word::Distance, 0);
    put(words, 0, Word::Depth, 0);
    for v in 1..n {
        measure_node(file, n, v, words);
    }
}

// ---- first children and next siblings, from the last node up

// Stores "none" as the first child and the next sibling of each node.
fn clear(n: usize, words: &mut [u64])
    requires { node_words * n ≤ length words.old }
    ensures unlinked { Unlinked words.new n }
    ensures links_only { LinksOnly n words.old words.new }
{
    for v in 0..n {
        put(words, v, Word::Child, 0);
        put(words, v, Word::Sibling, 0);
    }
}

// Puts node `v` in front of the list of its parent's children.
fn link_node(file: &TreeFile, n: usize, v: usize, words: &mut [u64])
    requires site_room { SiteRoom file.now n words.old v }
    requires linked { Linked (tree_of file.now) words.old v }
    ensures linked_2 { Linked (tree_of file.now) words.new (v - 1) }
    ensures links_only { LinksOnly n words.old words.new }
{
    let up = file.parent(v);
    let first = word_of(words, up, Word::Child);
    put(words, v, Word::Sibling, first);
    put(words, up, Word::Child, v as u64);
}

// Stores the first child and the next sibling of each node.
fn link(file: &TreeFile, n: usize, words: &mut [u64])
    requires { NodeRoom file.now n words.old }
    ensures linked { Linked (tree_of file.now) words.new 0 }
    ensures links_only { LinksOnly n words.old words.new }
{
    clear(n, words);
    for v in (1..n).rev() {
        link_node(file, n, v, words);
    }
}

// Stores the four words of each node, and changes nothing behind them.
pub fn note_nodes(file: &TreeFile, n: usize, words: &mut [u64])
    requires { NodeRoom file.now n words.old }
    ensures node_words { NodeWords (tree_of file.now) words.new }
    ensures front_only { FrontOnly (node_words * n) words.old words.new }
{
    measure(file, n, words);
    link(file, n, words);
}
