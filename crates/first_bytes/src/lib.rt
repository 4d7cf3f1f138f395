// The first bytes of an input, as many as fit in lent memory.
#![tactic(auto)]

ghost use Rattle.std.specs.Prelude.{◌≡◌, ◌≤◌, length, take, IfOk, IfSome};

use std::io;
use std::io::Read;

// Reads from `input` into the start of `memory` until `memory` is full or the input ends, and answers how many bytes there
// are. Where the input's bytes are known, these are its first.
pub fn read_into<R: Read>(input: &mut R, memory: &mut [u8]) -> io::Result<usize>
    ensures fits { IfOk result (λ n. n ≤ length memory.new) }
    ensures bytes { IfOk result (λ n. IfSome (R.remaining input.old) (λ xs. take n memory.new ≡ take (length memory.new) xs)) }
{
    let mut end = 0;
    while end < memory.len() {
        let count = input.read(&mut memory[end..])?;
        if count == 0 {
            return Ok(end);
        }
        end += count;
    }
    Ok(end)
}
