// The text of test cases and of their answers, one to a line, their words apart by a space.
//
// A word is a name, a number, a list of numbers apart by commas, or a file: pieces of hexadecimal digits apart by `+`,
// where `*N` after a piece stands for N of it.
#![tactic(auto)]

ghost use Rattle.std.specs.Prelude.{◌≡◌, ◌≤◌, length, take};

use std::fmt::Display;
use std::io;
use std::io::{BufWriter, Printer, Write};
use tree_file::Refusal;

// Room for the text of all cases: as many bytes of the input are read.
pub const TEXT_ROOM: usize = 393_216;

// Room for the file of a case: the longest that is accepted has 13,321 bytes.
pub const FILE_ROOM: usize = 13_440;

// Room for the scratch of a case, in words.
pub const SCRATCH_ROOM: usize = 40_960;

// Each word of the scratch that most programs lend, before the call.
pub const SCRATCH_WORD: u64 = 5_432_123;

// A case: the words of a line.
#[derive(Clone, Copy)]
pub struct Case<'a> {
    line: &'a [u8],
}

impl<'a> Case<'a> {
    // Word `k` of the line, empty if there is none.
    pub fn word(&self, k: usize) -> &'a [u8] {
        self.line
            .split(|byte| *byte == b' ')
            .nth(k)
            .unwrap_or_default()
    }

    // The number that word `k` says, and the largest of 64 bits for every number above it.
    pub fn number(&self, k: usize) -> u64 {
        number_of(self.word(k))
    }

    // The same, at most `most`.
    pub fn number_within(&self, k: usize, most: usize) -> usize
        ensures { result ≤ most }
    {
        self.number(k).min(most as u64) as usize
    }

    // The list of numbers that word `k` says, as many as fit in the room, at its start.
    pub fn numbers<'b>(&self, k: usize, room: &'b mut [u16]) -> &'b [u16]
        ensures { length result.now ≤ length room.old }
    {
        let mut end = 0;
        for piece in self.word(k).split_inclusive(|byte| *byte == b',') {
            end = put(room, end, entry_of(piece));
        }
        &room[..end]
    }

    // As many entries of the room as word `k` says, from its start, as they are: all of them if it says more.
    pub fn lent<'b, T>(&self, k: usize, room: &'b mut [T]) -> &'b mut [T]
        ensures within { length result.now ≤ length room.old }
        ensures start { result.now ≡ take (length result.now) room.old }
    {
        let n = self.number_within(k, room.len());
        &mut room[..n]
    }

    // The bytes of the file that word `k` says, as many as fit in the room, at its start.
    pub fn file<'b>(&self, k: usize, room: &'b mut [u8]) -> &'b [u8]
        ensures { length result.now ≤ length room.old }
    {
        let mut end = 0;
        for piece in self.word(k).split(|byte| *byte == b'+') {
            end = put_piece(room, end, piece);
        }
        &room[..end]
    }
}

// The number that decimal digits say, at most the largest of 64 bits.
fn number_of(digits: &[u8]) -> u64 {
    digits.iter().fold(0u64, |value, byte| {
        value.saturating_mul(10).saturating_add(digit(*byte) as u64)
    })
}

// The value of a decimal or hexadecimal digit, 0 for another byte; unlike for `to_digit`, a capital letter is no digit.
fn digit(byte: u8) -> u8
    ensures { result ≤ 15 }
{
    match byte {
        b'0'..=b'9' => byte - b'0',
        b'a'..=b'f' => byte - b'a' + 10,
        _ => 0,
    }
}

// An entry of a list of numbers, with the comma after it.
fn entry_of(piece: &[u8]) -> u16 {
    (number_of(piece.strip_suffix(b",").unwrap_or(piece)) % 65_536) as u16
}

// Writes an entry at `end`, if there is room, and answers where the next one goes.
fn put<T: Drop>(room: &mut [T], end: usize, entry: T) -> usize
    ensures { result ≤ length room.new }
{
    if room.len() <= end {
        return room.len();
    }
    room[end] = entry;
    end + 1
}

// Writes a piece of a file from `end` on, as often as it says, and answers where it ends.
fn put_piece(room: &mut [u8], end: usize, piece: &[u8]) -> usize
    requires { end ≤ length room.old }
    ensures { result ≤ length room.new }
{
    let mut parts = piece.splitn(2, |byte| *byte == b'*');
    let digits = parts.next().unwrap_or_default();
    let copies = parts.next().map_or(1, number_of);
    let mut end = end;
    for _ in 0..copies {
        // a full room takes no more, and then a copy costs next to nothing
        if end < room.len() {
            for pair in digits.chunks_exact(2) {
                end = put(room, end, digit(pair[0]) * 16 + digit(pair[1]));
            }
        }
    }
    end
}

// ---- answers, to a writer

// Answers the case of each line of a text, in order.
fn answer_lines<W: Write, F>(out: &mut W, text: &[u8], mut answer: F) -> io::Result<()>
where
    F: FnMut(&mut W, Case<'_>) -> io::Result<()>,
    requires { F.IsAlwaysCallable answer }
{
    for line in text.split_inclusive(|byte| *byte == b'\n') {
        let words = line.strip_suffix(b"\n").unwrap_or(line);
        answer(out, Case { line: words })?;
    }
    Ok(())
}

// Answers the case of each line of standard input, in order, on standard output.
pub fn answer_cases<'a, R: Input + Print + AllocGlobal, F>(rt: &'a R, answer: F) -> io::Result<()>
where
    F: FnMut(&mut BufWriter<Printer<'a, R>>, Case<'_>) -> io::Result<()>,
    requires { F.IsAlwaysCallable answer }
{
    let mut text = [0u8; TEXT_ROOM];
    let n = first_bytes::read_into(&mut rt.reader(), &mut text)?;
    let mut out = BufWriter::new(rt.alloc(), io::writer(rt))?;
    answer_lines(&mut out, &text[..n], answer)?;
    out.flush()
}

// Prints the name of the case, which its line begins with.
pub fn print_name<W: Write>(out: &mut W, case: Case<'_>) -> io::Result<()> {
    out.write_all(case.word(0))
}

pub fn end_line<W: Write>(out: &mut W) -> io::Result<()> {
    out.write_all(b"\n")
}

// Prints ` accepted`, or ` refused` with the rule and the record.
pub fn print_ruling<W: Write>(out: &mut W, ruling: Result<(), Refusal>) -> io::Result<()> {
    match ruling {
        Ok(()) => out.write_all(b" accepted"),
        Err(refusal) => print_refusal(out, refusal),
    }
}

pub fn print_refusal<W: Write>(out: &mut W, refusal: Refusal) -> io::Result<()> {
    print_refused(out, refusal.rule.number(), refusal.record)
}

pub fn print_refused<W: Write>(out: &mut W, rule: u8, record: u16) -> io::Result<()> {
    write!(out, " refused {rule} {record}")
}

// Prints a space and a number.
pub fn print_number<W: Write, N: Display + Drop>(out: &mut W, value: N) -> io::Result<()> {
    write!(out, " {value}")
}

// Prints a name, and for each number of a list a space and the number.
pub fn print_numbers<W: Write, N: Display + Copy>(
    out: &mut W,
    name: &[u8],
    values: &[N],
) -> io::Result<()> {
    out.write_all(name)?;
    for value in values {
        print_number(out, *value)?;
    }
    Ok(())
}

// Prints the buffers of a plan.
pub fn print_plan<W: Write>(out: &mut W, totals: &[u64], rows: &[u16]) -> io::Result<()> {
    print_numbers(out, b" totals", totals)?;
    print_numbers(out, b" rows", rows)
}

// Prints ` kept` if all words of the scratch from `beyond` on are this value.
pub fn print_kept<W: Write>(
    out: &mut W,
    scratch: &[u64],
    beyond: usize,
    value: u64,
) -> io::Result<()> {
    if trial_buffers::all_from(scratch, beyond, value) {
        out.write_all(b" kept")?;
    }
    Ok(())
}

// Prints a space and the hexadecimal digits of the bytes.
pub fn print_bytes<W: Write>(out: &mut W, bytes: &[u8]) -> io::Result<()> {
    out.write_all(b" ")?;
    for byte in bytes {
        write!(out, "{byte:02x}")?;
    }
    Ok(())
}

// Prints a line with how many there were of something.
pub fn print_count<W: Write>(out: &mut W, what: &[u8], count: u64) -> io::Result<()> {
    out.write_all(what)?;
    writeln!(out, " {count}")
}

// Prints a line that something of tree i of a sequence differs at a budget, a node or a set.
pub fn print_difference<W: Write>(out: &mut W, i: u64, at: usize, what: &[u8]) -> io::Result<()> {
    write!(out, "tree {i} at {at}")?;
    out.write_all(what)?;
    out.write_all(b" differs\n")
}
