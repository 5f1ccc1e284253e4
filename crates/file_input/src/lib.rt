// Reading an open file: up to its end, or as far as there is room. A read that fails is never taken for the end of a file.
#![tactic(auto)]

ghost use Rattle.std.specs.Prelude.{◌≡◌, ◌≤◌, ◌↔◌, IsTrue, length};
ghost use Rattle.std.specs.IoError.{error_kind};
ghost use Rattle.std.specs.declared.ops.ControlFlow.TheVariants.{Break};
ghost use Rattle.file_input.specs.Reads.{Means, told_step, told, reading_of, Fitting, Holds};

use std::io;
use std::io::{ErrorKind, Read};
use std::ops::ControlFlow;

// A read failed before the file's end, and before the buffer was full.
#[derive(Clone, Copy, Debug, PartialEq, Eq)]
pub struct ReadFailed;

// Whether a signal came before the read brought a byte.
fn was_interrupted(e: &io::Error) -> bool
    ensures { IsTrue result ↔ (error_kind e.now ≡ ErrorKind.Interrupted) }
{
    e.kind() == ErrorKind::Interrupted
}

// What a read's answer means: to read on after so many bytes, none of them where a signal came first; or the end of the file, or a failure. Only
// an answer of 0 is the end of the file.
fn step_of(got: io::Result<usize>, buf: &[u8]) -> ControlFlow<Result<(), ReadFailed>, usize>
    ensures { Means got (length buf.now) (told_step result) }
{
    match got {
        Ok(count) => {
            let n = count.min(buf.len());
            if n == 0 {
                ControlFlow::Break(Ok(()))
            } else {
                ControlFlow::Continue(n)
            }
        }
        Err(e) if was_interrupted(&e) => ControlFlow::Continue(0),
        Err(_) => ControlFlow::Break(Err(ReadFailed)),
    }
}

// One read into the buffer, from a place on.
fn read_some<R: Read>(
    input: &mut R,
    buf: &mut [u8],
    from: usize,
) -> ControlFlow<Result<(), ReadFailed>, usize>
    requires { from ≤ length buf.old }
    ensures { Fitting (told_step result) from (length buf.new) }
{
    let rest = &mut buf[from..];
    let got = input.read(rest);
    step_of(got, rest)
}

// What the reading came to, after so many bytes, at a read that brought no more.
fn reading_of(last: Result<(), ReadFailed>, done: usize) -> Result<usize, ReadFailed>
    ensures { told result ≡ reading_of (told_step (Break last)) done }
{
    last?;
    Ok(done)
}

// Reads until the file ends or the buffer is full. A proved loop ends: its turns are counted, and no input uses them up.
pub fn read_file<R: Read>(input: &mut R, buf: &mut [u8]) -> Result<usize, ReadFailed>
    ensures { Holds (told result) buf.new }
{
    let mut done = 0;
    for _ in 0..u64::MAX {
        if done == buf.len() {
            return Ok(done);
        }
        match read_some(input, buf, done) {
            ControlFlow::Continue(n) => done += n,
            ControlFlow::Break(last) => return reading_of(last, done),
        }
    }
    Err(ReadFailed)
}
