// What the programs that read files from standard input share: the next files of the input, and why there may be no more.
#![tactic(auto)]

ghost use Rattle.std.specs.Prelude.{◌≡◌, is_ok};
ghost use Rattle.std.specs.Counts.{IsPrefixLen};
ghost use Rattle.file_input.specs.Reads.{told};
ghost use Rattle.tool_console.specs.Next.{is_full, brought, is_empty};

use file_input::ReadFailed;
use std::fmt;
use std::io::Read;

// Why the input's files are not all judged: it could not be read to its end, or it ends within a file.
#[derive(Clone, Copy, Debug, PartialEq, Eq)]
pub enum InputError {
    Unreadable,
    CutOff,
}

impl fmt::Display for InputError {
    ghost use Rattle.std.specs.Prelude.{Some};
    ghost use Rattle.tool_console.specs.Next.{said_of};

    ghost output = { λ e. Some (said_of e) };

    fn fmt<W: fmt::Write>(&self, f: &mut fmt::Formatter<W>) -> fmt::Result {
        match *self {
            InputError::Unreadable => f.write_str("the input could not be read to its end"),
            InputError::CutOff => f.write_str("the input ends within a file"),
        }
    }
}

// As many of the buffer's bytes as n says, or all.
pub fn within(n: usize, buf: &[u8]) -> usize
    ensures { IsPrefixLen result buf.now }
{
    n.min(buf.len())
}

// Whether a reading brought all the bytes that were asked for.
fn brought(reading: Result<usize, ReadFailed>, asked: usize) -> Result<(), InputError>
    ensures why { result ≡ brought (told reading) asked }
    ensures full { is_ok result ≡ is_full (told reading) asked }
{
    match reading {
        Ok(n) if n < asked => Err(InputError::CutOff),
        Ok(_) => Ok(()),
        Err(_) => Err(InputError::Unreadable),
    }
}

// Whether the input had ended before the reading.
fn ended(reading: Result<usize, ReadFailed>) -> bool
    ensures { result ≡ is_empty (told reading) }
{
    reading == Ok(0)
}

// The next n bytes of the input, as many as the buffer holds.
pub fn next_bytes<'b, R: Read>(
    input: &mut R,
    n: usize,
    buf: &'b mut [u8],
) -> Result<&'b [u8], InputError> {
    let k = within(n, buf);
    let reading = file_input::read_file(input, &mut buf[..k]);
    brought(reading, k)?;
    Ok(&buf[..k])
}

// The sizes of the next files of the input, as many bytes as are lent: whether there are any.
pub fn next_sizes<R: Read>(input: &mut R, sizes: &mut [u8]) -> Result<bool, InputError> {
    let reading = file_input::read_file(input, sizes);
    if ended(reading) {
        return Ok(false);
    }
    brought(reading, sizes.len())?;
    Ok(true)
}
