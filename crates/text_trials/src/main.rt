// Runs the cases of the program's text: a case to each line of standard input, `NAME FILE`, and for each the name on a line of
// its own and below it the text as it is.
#![tactic(auto)]

use std::io;
use std::io::Write;
use trial_text::{Case, FILE_ROOM};

fn answer<W: Write>(out: &mut W, case: Case<'_>) -> io::Result<()> {
    trial_text::print_name(out, case)?;
    trial_text::end_line(out)?;
    let mut file = [0u8; FILE_ROOM];
    let file = case.file(1, &mut file);
    out.write_all(report_text::program_text(file).bytes())
}

fn main(rt: HostRuntime) -> io::Result<()> {
    trial_text::answer_cases(&rt, answer)
}
