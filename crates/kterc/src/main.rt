// The report program: reads a tree file on standard input and prints its report, or why the file is refused.
#![tactic(auto)]

ghost use Rattle.std.specs.Prelude.{OnOk, IfSome};
ghost use Rattle.std.specs.Io.KnownBytes.{Appends};
ghost use Rattle.model.specs.Report.{program_text};

use std::io;
use std::io::{Read, Write};

// Reads the first look at a file and writes the report on it: where the bytes of the reader and of the writer are known, this is
// what the program prints for the whole file.
fn print_report<R: Read, W: Write>(input: &mut R, out: &mut W) -> io::Result<()>
    ensures { OnOk result (IfSome (R.remaining input.old) (λ file. Appends (W.contents out.old) (W.contents out.new) (program_text file))) }
{
    let mut file = [0u8; program_report::FIRST_LOOK];
    let n = first_bytes::read_into(input, &mut file)?;
    let text = report_text::program_text(&file[..n]);
    out.write_all(text.bytes())
}

fn main(rt: HostRuntime) -> io::Result<()> {
    print_report(&mut rt.stdin(), &mut io::writer(&rt))
}
