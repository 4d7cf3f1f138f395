// Where the lines of each node lie in the scratch, worked out from an accepted file alone.
#![tactic(auto)]

ghost use Rattle.std.specs.Prelude.{◌≡◌, ℕ, ◌-◌, ◌≤◌, ◌<◌, length};
ghost use Rattle.model.specs.File.{most_nodes, count_of, tree_of};
ghost use Rattle.model.specs.Tree.{depth};
ghost use Rattle.model.specs.Rules.{scratch_words};
ghost use Rattle.best_rows.specs.Rows.{row_size};
ghost use Rattle.best_rows.specs.TreeRows.{row_at};
ghost use Rattle.tree_file.specs.Checks.{AcceptedSizes};
ghost use Rattle.places.specs.Places.{start_in, width_in, Places, Entries, RowsCounted, EntriesAre, width_from, end_from, Placeable};

use fields::{Tree, TreeFile};

// Where the lines of a node begin, and how many entries each has. While the places are worked out, `start` is the node's depth, and
// `width` how many nodes its row has.
#[derive(Clone, Copy)]
pub struct Place {
    pub start: u32,
    pub width: u16,
}

impl Place {
    pub const NONE: Place = Place { start: 0, width: 0 };

    // The index of the first entry.
    pub fn first(self) -> usize
        ensures { result ≡ self.start }
    {
        self.start as usize
    }

    // How many entries a line has.
    pub fn entries(self) -> usize
        ensures { result ≡ self.width }
    {
        usize::from(self.width)
    }
}

// ---- how many nodes each row has, from the last node up

// Counts the row that begins with node v: the node, those below it, and those of its later siblings' row.
#[tactic(auto, using(crate::proofs::Counting::row_fits))]
fn count_row(file: &TreeFile, v: usize, places: &mut [Place])
    requires entries { Entries file.now (count_of file.now) places.old }
    requires v_nonzero { (0 < v) × (v < count_of file.now) }
    requires rows_counted { RowsCounted (tree_of file.now) (width_in places.old) v }
    ensures { RowsCounted (tree_of file.now) (width_in places.new) (v - 1) }
{
    let up = file.parent(v);
    let below = places[v].width;
    let later = places[up].width;
    let nodes = 1 + below + later;
    places[v].width = nodes;
    places[up].width = nodes;
}

// Stores for each node how many nodes the row has that begins with it; node 0 stands for the empty row.
fn count_rows(file: &TreeFile, n: usize, places: &mut [Place])
    requires { Entries file.now n places.old }
    ensures { EntriesAre (λ v. row_size (row_at (tree_of file.now) v)) (width_in places.new) n }
{
    places[..n].fill(Place::NONE);
    for v in (1..n).rev() {
        count_row(file, v, places);
    }
    places[0].width = 0;
}

// ---- depths, from the server down

// Stores the depth of each node, one more than its parent's, and keeps the rest.
fn note_depths(file: &TreeFile, n: usize, places: &mut [Place])
    requires { Entries file.now n places.old }
    ensures depths { EntriesAre (depth (tree_of file.now)) (start_in places.new) n }
    ensures widths_kept { EntriesAre (width_in places.old) (width_in places.new) n }
{
    places[0].start = 0;
    for v in 1..n {
        let up = file.parent(v);
        places[v].start = places[up].start + 1;
    }
}

// ---- the places, from node 1 on

// Makes the place of a node whose lines begin at `start`, from its depth and how many nodes its row has, and returns where they end.
fn place_node(node: &mut Place, k: usize, start: usize) -> usize
    requires { Placeable k node.old start }
    ensures node_after { node.new ≡ record { start = start; width = width_from k node.old } }
    ensures value { result ≡ end_from k node.old start }
{
    let width = k.min(node.entries()) + 1;
    let depth = node.first();
    let end = start + depth * width;
    *node = Place {
        start: start as u32,
        width: width as u16,
    };
    end
}

// Stores the places of the lines of an accepted file, and returns where they end: the words that rule 13 asks for.
pub fn note_places(file: &TreeFile, tree: Tree, places: &mut [Place]) -> usize
    requires accepted_sizes { AcceptedSizes file.now tree }
    requires most_nodes_in_bounds { most_nodes ≤ length places.old }
    ensures value { result ≡ scratch_words file.now }
    ensures places { Places (tree_of file.now) tree.budget places.new }
{
    let n = tree.nodes;
    count_rows(file, n, places);
    note_depths(file, n, places);
    places[0].width = 1;
    let mut end = 4 * n;
    for node in &mut places[1..n] {
        end = place_node(node, tree.budget, end);
    }
    end
}
