// Bytes and decimal numbers appended to a text in lent memory; each function answers where the text ends now.
#![tactic(auto)]

ghost use Rattle.std.specs.Prelude.{◌∷◌, [], ◌+◌, ◌≤◌, ◌<◌, length};
ghost use Rattle.model.specs.Report.{decimal};
ghost use Rattle.text_bytes.specs.Appended.{Appended};

// The byte of the digit 0; the other digits follow it.
const ZERO: u8 = b'0';

// Appends one byte to the text that ends at `at`.
pub fn put_byte(text: &mut [u8], at: usize, byte: u8) -> usize
    requires { at < length text.old }
    ensures { Appended at (byte ∷ []) text.old text.new result }
{
    text[at] = byte;
    at + 1
}

// Appends bytes.
pub fn put_bytes(text: &mut [u8], at: usize, bytes: &[u8]) -> usize
    requires { at + length bytes.now ≤ length text.old }
    ensures { Appended at bytes.now text.old text.new result }
{
    let mut end = at;
    for byte in bytes {
        end = put_byte(text, end, *byte);
    }
    end
}

// Appends a number in decimal digits.
pub fn put_decimal(text: &mut [u8], at: usize, value: u64) -> usize
    requires { at + length (decimal value) ≤ length text.old }
    ensures { Appended at (decimal value) text.old text.new result }
{
    if value < 10 {
        return put_byte(text, at, ZERO + value as u8);
    }
    let last = put_decimal(text, at, value / 10);
    put_byte(text, last, ZERO + (value % 10) as u8)
}
