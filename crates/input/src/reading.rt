//! Reading until a buffer is full.
ghost use Rattle.std.specs.Prelude.{◌≤◌, length, IfOk};

use std::io;
use std::io::Read;

/// Reads into `bytes` until they are full or the input has ended, and answers how many were read.
pub fn fill<R: Read>(input: &mut R, bytes: &mut [u8]) -> io::Result<usize>
    ensures { IfOk result (λ n. n ≤ length bytes.new) }
{
    // No call of the library does it: `read_exact` fails where the input ends, `io::copy` promises no bound on its count.
    let mut count = 0;
    while count < bytes.len() {
        let more = input.read(&mut bytes[count..])?;
        if more == 0 {
            break;
        }
        count += more;
    }
    Ok(count)
}
