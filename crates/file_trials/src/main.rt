// Runs the cases of the tree file: a case to each line of standard input, and its answer on a line of standard output.
//
// `NAME check FILE`: `NAME accepted N K H host 0`, or `NAME refused RULE RECORD host RULE`; what the check for a C host
// says of the same bytes stands after `host`.
// `NAME record NODE FILE`: `NAME record BYTES`, or `NAME record none` for an empty one.
#![tactic(auto)]

use fields::Tree;
use std::io;
use std::io::Write;
use tree_file::Refusal;
use trial_text::{Case, FILE_ROOM};

fn print_accepted<W: Write>(out: &mut W, tree: Tree) -> io::Result<()> {
    write!(
        out,
        " accepted {} {} {}",
        tree.nodes, tree.budget, tree.height
    )
}

fn print_checked<W: Write>(out: &mut W, checked: Result<Tree, Refusal>) -> io::Result<()> {
    match checked {
        Ok(tree) => print_accepted(out, tree),
        Err(refusal) => trial_text::print_refusal(out, refusal),
    }
}

fn check_case<W: Write>(out: &mut W, case: Case<'_>) -> io::Result<()> {
    let mut file = [0u8; FILE_ROOM];
    let file = case.file(2, &mut file);
    print_checked(out, tree_file::check(file))?;
    write!(out, " host {}", tree_file::kterc_check(file))
}

fn record_case<W: Write>(out: &mut W, case: Case<'_>) -> io::Result<()> {
    out.write_all(b" record")?;
    let mut file = [0u8; FILE_ROOM];
    let file = case.file(3, &mut file);
    let record = tree_file::record_of(file, case.number(2) as usize);
    if record.is_empty() {
        return out.write_all(b" none");
    }
    trial_text::print_bytes(out, record)
}

fn answer<W: Write>(out: &mut W, case: Case<'_>) -> io::Result<()> {
    trial_text::print_name(out, case)?;
    match case.word(1) {
        b"check" => check_case(out, case)?,
        b"record" => record_case(out, case)?,
        _ => {}
    }
    trial_text::end_line(out)
}

fn main(rt: HostRuntime) -> io::Result<()> {
    trial_text::answer_cases(&rt, answer)
}
