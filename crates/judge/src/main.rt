// The program: reads standard input, and writes out the response that the crate printing proves. What is not proved is what any
// program's reading and writing rests on: that the bytes come in and go out as they are. Proved of `read_full` is, of any reader whose
// bytes are known, that it stops at their end or the buffer's and holds in front what that reader gave, in order. A read or a write that
// fails ends the program with an error. That both buffers are long enough for an input of any length is part of what `respond_all` tells.
#![tactic(auto)]

ghost use Rattle.std.specs.Prelude.{◌≤◌, ◌<◌, ◌≢◌, length, take, IfOk, IfErr};
ghost use Rattle.std.specs.IoError.{error_kind};
ghost use Rattle.std.specs.Io.KnownBytes.{Consumes, IsAtEnd};

use frame::MOST_READ;
use printing::MOST_OUTPUT;
use std::io;
use std::io::{Error, ErrorKind, Read};

// Reads until the buffer is full or the input ends, and answers how many bytes it put at the buffer's start. What is longer than the
// buffer is left unread. A read that a signal interrupts is made again. After 2^64 - 1 reads it gives up with an error, as std does.
fn read_full<R: Read>(from: &mut R, buffer: &mut [u8]) -> io::Result<usize>
    ensures within { IfOk result (λ n. n ≤ length buffer.new) }
    ensures bytes { IfOk result (λ n. Consumes (R.remaining from.old) (R.remaining from.new) (take n buffer.new)) }
    ensures end { IfOk result (λ n. n < length buffer.new → IsAtEnd (R.remaining from.new)) }
    ensures retried { IfErr result (λ e. error_kind e ≢ ErrorKind.Interrupted) }
{
    let mut done = 0;
    for _ in 0..u64::MAX {
        if done >= buffer.len() {
            return Ok(buffer.len());
        }
        match from.read(&mut buffer[done..]) {
            Ok(0) => return Ok(done),
            Ok(n) => done += n,
            Err(e) => {
                if e.kind() != ErrorKind::Interrupted {
                    return Err(e);
                }
            }
        }
    }
    Err(Error::from(ErrorKind::TimedOut))
}

fn main(rt: HostRuntime) -> io::Result<()> {
    let mut input = [0u8; MOST_READ];
    let mut out = [0u8; MOST_OUTPUT];
    let n = read_full(&mut rt.stdin(), &mut input)?;
    let written = printing::respond_all(&mut out, &input, n);
    rt.write_all(&out[..written])
}
