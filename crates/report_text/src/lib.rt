// The text that the report program prints, appended to lent memory word by word; each function answers where the text ends now.
#![tactic(auto)]

ghost use Rattle.std.specs.Prelude.{◌≡◌, List, ℕ, suc, ◌+◌, ◌*◌, ◌≤◌, length, take};
ghost use mathlib.Core.List.{[], ◌∷◌, flat_map};
ghost use Rattle.laws.specs.Lists.{range, those};
ghost use Rattle.model.specs.File.{budget_of};
ghost use Rattle.model.specs.Rules.{passed};
ghost use Rattle.model.specs.Report.{decimal, report_text, refusal_text, program_verdict, program_text};
ghost use Rattle.tree_file.specs.Refusals.{rule_number};
ghost use Rattle.report_text.specs.Lines.{word, words, is_node, budget_line, number_room, word_room, line_room, lines_room, refusal_room, AppendedWithin, ReportBuffers};

use program_report::Report;
use std::marker::Model;
use tree_file::Refusal;

// The bytes of a number with its space: 20 digits are enough for 64 bits.
const WORD: usize = 21;

// The bytes of a line at the program's limit: a budget, two totals and the nodes; the newline stands for the budget's space.
const LINE: usize = (program_report::BUDGET + 3) * WORD;

// The bytes of all lines.
const ROOM: usize = (program_report::BUDGET + 1) * LINE;

const SPACE: u8 = b' ';

const NEWLINE: u8 = b'\n';

// What the program prints: the first `length` bytes of its memory.
#[derive(Drop)]
pub struct Text {
    memory: [u8; ROOM],
    length: usize,
}

impl Model for Text {
    ghost Value = { List ℕ };

    ghost view = { λ t. take t.length t.memory };

    ghost invariant = { λ t. t.length ≤ lines_room };
}

impl Text {
    pub fn bytes(&self) -> &[u8]
        ensures { result.now ≡ self.now }
    {
        &self.memory[..self.length]
    }
}

// ---- words

// Appends a number in decimal digits.
fn put_number(text: &mut [u8], at: usize, value: u64) -> usize
    requires { at + number_room ≤ length text.old }
    ensures { AppendedWithin number_room at (decimal value) text.old text.new result }
{
    text_bytes::put_decimal(text, at, value)
}

// Appends a space and a number.
fn put_word(text: &mut [u8], at: usize, value: u64) -> usize
    requires { at + word_room ≤ length text.old }
    ensures { AppendedWithin word_room at (word value) text.old text.new result }
{
    let digits = text_bytes::put_byte(text, at, SPACE);
    put_number(text, digits, value)
}

// Appends an entry of a row, and nothing where it is 0.
fn put_node(text: &mut [u8], at: usize, entry: u16) -> usize
    requires { at + word_room ≤ length text.old }
    ensures { AppendedWithin word_room at (words (those is_node (entry ∷ []))) text.old text.new result }
{
    if entry == 0 {
        return at;
    }
    put_word(text, at, u64::from(entry))
}

// Appends the nodes of a row.
fn put_nodes(text: &mut [u8], at: usize, row: &[u16]) -> usize
    requires { at + length row.now * word_room ≤ length text.old }
    ensures { AppendedWithin (length row.now * word_room) at (words (those is_node row.now)) text.old text.new result }
{
    let mut end = at;
    for entry in row {
        end = put_node(text, end, *entry);
    }
    end
}

// ---- lines

// Appends the line of budget b: b, the plan's total, the greedy total, the plan's nodes.
fn put_line(text: &mut [u8], at: usize, b: usize, k: usize, report: &Report) -> usize
    requires report_buffers { ReportBuffers k report.now.totals report.now.rows report.now.greedy_totals }
    requires b_le_k { (b ≤ k) × (at + line_room ≤ length text.old) }
    ensures { AppendedWithin line_room at (budget_line k report.now.totals report.now.rows report.now.greedy_totals b) text.old text.new result }
{
    let mut end = put_number(text, at, b as u64);
    end = put_word(text, end, report.totals[b]);
    end = put_word(text, end, report.greedy_totals[b]);
    end = put_nodes(text, end, &report.rows[b * k..b * k + k]);
    text_bytes::put_byte(text, end, NEWLINE)
}

// Appends the line of every budget from 0 to k, at the start of the text.
fn put_lines(text: &mut [u8], k: usize, report: &Report) -> usize
    requires report_buffers { ReportBuffers k report.now.totals report.now.rows report.now.greedy_totals }
    requires lines_room_in_bounds { lines_room ≤ length text.old }
    ensures { AppendedWithin lines_room 0 (flat_map (budget_line k report.now.totals report.now.rows report.now.greedy_totals) (range 0 (suc k))) text.old text.new result }
{
    let mut end = 0;
    for b in 0..k + 1 {
        end = put_line(text, end, b, k, report);
    }
    end
}

// The line of a refusal: the word `refused`, the number, the record.
// Not Display: the text of the program is proved byte by byte.
fn put_refusal(text: &mut [u8], refusal: Refusal) -> usize
    requires { refusal_room ≤ length text.old }
    ensures { AppendedWithin refusal_room 0 (refusal_text (rule_number refusal.rule) refusal.record) text.old text.new result }
{
    let mut end = text_bytes::put_bytes(text, 0, b"refused");
    end = put_word(text, end, u64::from(refusal.rule.number()));
    end = put_word(text, end, u64::from(refusal.record));
    text_bytes::put_byte(text, end, NEWLINE)
}

// ---- the text

// One line for each budget of a file that the program accepts.
fn report_lines(file: &[u8], budget: usize) -> Text
    requires { (program_verdict file.now ≡ passed) × (budget ≡ budget_of file.now) }
    ensures { result ≡ report_text file.now }
{
    let report = program_report::report_of(file);
    let mut memory = [0u8; ROOM];
    let length = put_lines(&mut memory, budget, &report);
    Text { memory, length }
}

fn refusal_line(refusal: Refusal) -> Text
    ensures { result ≡ refusal_text (rule_number refusal.rule) refusal.record }
{
    let mut memory = [0u8; ROOM];
    let length = put_refusal(&mut memory, refusal);
    Text { memory, length }
}

// What the program prints, for every input.
pub fn program_text(input: &[u8]) -> Text
    ensures { result ≡ program_text input.now }
{
    match program_report::check(input) {
        Ok(tree) => report_lines(input, tree.budget),
        Err(refusal) => refusal_line(refusal),
    }
}
