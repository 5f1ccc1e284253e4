// Reads files from standard input and prints what a field viewer gives of each, a line a field: its place, tag and length; then `ended`
// or `refused 1` with the place at which the viewer stays. A file comes as its length (2 bytes) and its bytes. An input that can't be read to
// its end, or that ends within a file, is said so on standard error, and that file is not viewed.
#![tactic(auto)]

use file_fields::Field;
use file_fields::refusals::Fault;
use file_viewer::Viewing;
use std::io::Read;
use tool_console::InputError;

// Prints what was given, and answers whether it was a field. A line that can't be written is left out.
fn print_viewing<P: Print>(out: &P, v: Viewing) -> bool {
    let place = v.place;
    let _ = match v.field {
        Field::Whole { tag, size, .. } => println!(out; "{place} {tag} {size}"),
        Field::Ended => println!(out; "ended {place}"),
        Field::Overrun => println!(out; "refused {} {place}", Fault::Overrun.number()),
    };
    matches!(v.field, Field::Whole { .. })
}

// A file has fewer fields than bytes, so the viewer stays before the turns are over.
fn print_file<P: Print>(out: &P, file: &[u8]) {
    for n in 0..=file.len() {
        if !print_viewing(out, file_viewer::nth(file, n)) {
            return;
        }
    }
}

// Views the next file, and answers whether there was one.
fn view_file<R: Read, P: Print>(input: &mut R, out: &P) -> Result<bool, InputError> {
    let mut size = [0; 2];
    if !tool_console::next_sizes(input, &mut size)? {
        return Ok(false);
    }
    let mut file = [0u8; 4096];
    let file = tool_console::next_bytes(input, file_fields::word(&size, 0), &mut file)?;
    print_file(out, file);
    Ok(true)
}

// Views files until there are no more. A proved loop ends: its turns are counted, and no input uses them up.
// The same loop stands in tool_judge: shared, it would be a public function that promises nothing, since no contract here says what was printed.
fn view_all<R: Read, P: Print>(input: &mut R, out: &P) -> Result<(), InputError> {
    for _ in 0..u64::MAX {
        if !view_file(input, out)? {
            break;
        }
    }
    Ok(())
}

fn main(rt: HostRuntime) {
    if let Err(e) = view_all(&mut rt.stdin(), &rt.stdout()) {
        let _ = eprintln!(rt; "{e}");
    }
}
