// Reads pairs of files from standard input and prints what the reader says of each, a line a pair: `accepted`, or the
// refusal's number, file and place. A pair is the case's length (2 bytes), the book's (2), the case and the book. An input that can't be read
// to its end, or that ends within a pair, is said so on standard error, and that pair is not judged.
#![tactic(auto)]

use file_fields::refusals::Refusal;
use std::io;
use std::io::Read;
use tool_console::InputError;

fn print_refusal<P: Print>(out: &P, refusal: Refusal) -> io::Result<()> {
    let number = refusal.fault.number();
    println!(out; "{number} {} {}", refusal.file, refusal.place)
}

fn print_verdict<P: Print>(out: &P, case: &[u8], book: &[u8]) -> io::Result<()> {
    match file_lookup::read_files(case, book) {
        Ok(_) => println!(out; "accepted"),
        Err(refusal) => print_refusal(out, refusal),
    }
}

// Judges the next pair, and answers whether there was one whose line was printed.
fn judge_pair<R: Read, P: Print>(input: &mut R, out: &P) -> Result<bool, InputError> {
    let mut sizes = [0; 4];
    if !tool_console::next_sizes(input, &mut sizes)? {
        return Ok(false);
    }
    let mut case = [0u8; 4096];
    let mut book = [0u8; 4096];
    let case = tool_console::next_bytes(input, file_fields::word(&sizes, 0), &mut case)?;
    let book = tool_console::next_bytes(input, file_fields::word(&sizes, 2), &mut book)?;
    Ok(print_verdict(out, case, book).is_ok())
}

// Judges pairs until there are no more. A proved loop ends: its turns are counted, and no input uses them up.
// The same loop stands in tool_view: shared, it would be a public function that promises nothing, since no contract here says what was printed.
fn judge_all<R: Read, P: Print>(input: &mut R, out: &P) -> Result<(), InputError> {
    for _ in 0..u64::MAX {
        if !judge_pair(input, out)? {
            break;
        }
    }
    Ok(())
}

fn main(rt: HostRuntime) {
    if let Err(e) = judge_all(&mut rt.stdin(), &rt.stdout()) {
        let _ = eprintln!(rt; "{e}");
    }
}
