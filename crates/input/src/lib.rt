// What programs read: standard input up to as many bytes as can matter, and a read that failed told from the end of the input.
#![tactic(auto)]

ghost use Rattle.std.specs.Prelude.{◌<◌, length, take, IfOk, IfErr};
ghost use Rattle.std.specs.Io.KnownBytes.{Consumes, IsAtEnd};
ghost use Rattle.io.specs.Counts.{IsPrefixLen};
ghost use Rattle.input.specs.Counts.{count_of};

use std::io::Read;

// A read failed, after so many bytes.
#[derive(Clone, Copy)]
pub struct ReadError {
    pub bytes: usize,
}

// Reads into the start of buf until it is full, the input ends or a read fails, and counts the bytes. Of a reader whose bytes are known these are its next
// ones; a read that failed is told from the end of the input. No contract can say which bytes the system gives.
pub fn read_input<R: Read>(from: &mut R, buf: &mut [u8]) -> Result<usize, ReadError>
    ensures in_bounds { IsPrefixLen (count_of result) buf.new }
    ensures bytes { Consumes (R.remaining from.old) (R.remaining from.new) (take (count_of result) buf.new) }
    ensures end { IfOk result (λ n. n < length buf.new → IsAtEnd (R.remaining from.new)) }
    ensures failing { IfErr result (λ e. e.bytes < length buf.new) }
{
    let mut n = 0;
    while n < buf.len() {
        match from.read(&mut buf[n..]) {
            Ok(0) => return Ok(n),
            Ok(more) => n += more,
            Err(_) => return Err(ReadError { bytes: n }),
        }
    }
    Ok(n)
}
