// Reading an input.
ghost use Rattle.std.specs.Prelude.{◌≤◌, length, IfOk};

use std::io;
use std::io::Read;

// How much of an input the programs read. The largest text of a sealed case is shorter.
pub const ROOM: usize = 65536;

// Reads as much of an input as the buffer holds, and answers how many bytes came.
pub fn fill(input: &mut impl Read, buffer: &mut [u8]) -> io::Result<usize>
    ensures { IfOk result (λ n. n ≤ length buffer.new) }
{
    let mut at = 0;
    // Each turn but the last brings a byte or more, so there are enough of them.
    for _ in 0..buffer.len() {
        let came = input.read(&mut buffer[at..])?;
        if came == 0 {
            break;
        }
        at += came;
    }
    Ok(at)
}
