// What the calls with lent scratch ask: the rules about the file, then rule 13 of the scratch.
#![tactic(auto)]

ghost use Rattle.std.specs.Prelude.{◌≡◌, leb};
ghost use Rattle.model.specs.Rules.{scratch_words};
ghost use Rattle.model.specs.Calls.{answer};
ghost use Rattle.model.specs.Hosts.{words_asked};
ghost use Rattle.tree_file.specs.Checks.{answer_of, sizes_of, AcceptedSizes};
ghost use Rattle.lent.specs.Lent.{lent_verdict};

use fields::{Tree, TreeFile};
use places::Place;
use tree_file::{Refusal, Rule};

// The words that rule 13 asks of an accepted file: where the lines of its nodes end.
fn scratch_words(file: &TreeFile, tree: Tree) -> usize
    requires { AcceptedSizes file.now tree }
    ensures { result ≡ scratch_words file.now }
{
    let mut places = [Place::NONE; Tree::NODES];
    places::note_places(file, tree, &mut places)
}

// Has a scratch of `words` words enough of them for an accepted file? That is rule 13.
pub fn enough(file: &TreeFile, tree: Tree, words: usize) -> bool
    requires { AcceptedSizes file.now tree }
    ensures { result ≡ leb (scratch_words file.now) words }
{
    scratch_words(file, tree) <= words
}

// The rules about the file, then rule 13 of a scratch of `words` words; n, k and h where they hold.
pub fn check(file: &[u8], words: usize) -> Result<Tree, Refusal>
    ensures { answer_of result ≡ answer (lent_verdict file.now words) (sizes_of file.now) }
{
    let tree = tree_file::check(file)?;
    Rule::Scratch.ask(enough(&TreeFile::of(file), tree, words))?;
    Ok(tree)
}

// The words that rule 13 asks of an accepted file, 0 for a refused one.
pub fn words_asked(file: &[u8]) -> usize
    ensures { result ≡ words_asked file.now }
{
    match tree_file::check(file) {
        Ok(tree) => scratch_words(&TreeFile::of(file), tree),
        Err(_) => 0,
    }
}
