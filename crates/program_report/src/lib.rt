// The report in the program's own memory: rule 15, and the memory that is enough within its limits.
#![tactic(auto)]

ghost use Rattle.std.specs.Prelude.{◌≡◌, ◌&&◌, leb, take};
ghost use Rattle.model.specs.Rules.{passed};
ghost use Rattle.model.specs.Calls.{answer};
ghost use Rattle.model.specs.Report.{first_look, program_nodes, program_height, program_budget, program_verdict};
ghost use Rattle.tree_file.specs.Checks.{answer_of, sizes_of};
ghost use Rattle.program_report.specs.Memory.{report_of};

use fields::Tree;
use tree_file::{Refusal, Rule};

// The program looks at so many bytes of its input.
pub const FIRST_LOOK: usize = 842;

// The limits of rule 15.
const NODES: usize = 64;

const HEIGHT: usize = 8;

pub const BUDGET: usize = 8;

// What rules 13 and 14 ask for at these limits.
const TOTALS: usize = BUDGET + 1;

const ROWS: usize = TOTALS * BUDGET;

const SCRATCH: usize = NODES * (HEIGHT + 1) * (BUDGET + 1) + 4 * NODES;

// What the program prints of a report: the plan's totals and rows, and the greedy rule's totals, in front of zeros.
#[derive(Drop)]
pub struct Report {
    pub totals: [u64; TOTALS],
    pub rows: [u16; ROWS],
    pub greedy_totals: [u64; TOTALS],
}

// The rest of rule 15.
fn is_small(tree: Tree) -> bool
    ensures { result ≡ (leb tree.nodes program_nodes && leb tree.height program_height && leb tree.budget program_budget) }
{
    tree.nodes <= NODES && tree.height <= HEIGHT && tree.budget <= BUDGET
}

// The rules about the file and rule 15, of the program's input; n, k and h where they hold.
pub fn check(input: &[u8]) -> Result<Tree, Refusal>
    ensures { answer_of result ≡ answer (program_verdict (take first_look input.now)) (sizes_of input.now) }
{
    Rule::Program.ask(input.len() < FIRST_LOOK)?;
    let tree = tree_file::check(input)?;
    Rule::Program.ask(is_small(tree))?;
    Ok(tree)
}

// The report of a file that the program accepts. Its memory passes rules 13 and 14, so no rule refuses.
pub fn report_of(file: &[u8]) -> Report
    requires { program_verdict file.now ≡ passed }
    ensures { result ≡ report_of file.now }
{
    let mut scratch = [0u64; SCRATCH];
    let mut totals = [0u64; TOTALS];
    let mut rows = [0u16; ROWS];
    let mut greedy_totals = [0u64; TOTALS];
    let mut greedy_nodes = [0u16; BUDGET];
    let ruling = report::report(
        file,
        &mut scratch,
        &mut totals,
        &mut rows,
        &mut greedy_totals,
        &mut greedy_nodes,
    );
    ruling.unwrap();
    Report {
        totals,
        rows,
        greedy_totals,
    }
}
