// Prints the listing of the case on standard input, with the book from the file `types.book` of the working directory; or the line of its refusal.
// It hands on at most the first 4,096 bytes of each file. Where one of them can't be read to its end, or so far, it prints nothing but a line on
// standard error that names it.
#![tactic(auto)]

ghost use Rattle.std.specs.Prelude.{◌≡◌, length};
ghost use Rattle.file_input.specs.Reads.{told, Holds};
ghost use Rattle.shift.specs.Shift.{Prints};

use file_input::ReadFailed;
use std::fs::File;
use std::io;
use std::rt::Files;

// The text for a case and a book, at the start of the buffer, and its length.
// The text's length is answered beside the buffer, as `out_listing::write` and `refused_line` do and `Prints` says it.
fn text_for(case: &[u8], book: &[u8], text: &mut [u8]) -> usize
    requires { length text.old ≡ 32768 }
    ensures { Prints case.now book.now result text.new }
{
    let mut rows = [0u8; 16384];
    let mut weights = [0u8; 40320];
    // The desk's call answers the struct that C reads: a refusal's number, 0 where there is none, with the value beside it.
    let a = desk::lampreysong_listing(case, book, &mut rows, &mut weights, text);
    if a.refusal != 0 {
        return out_listing::refused_line(a.refusal as u64, a.file as u64, a.place as u64, text);
    }
    a.value as usize
}

// The text for a case and a book, printed.
fn print_for<P: Print>(out: &P, case: &[u8], book: &[u8]) -> io::Result<()> {
    let mut text = [0u8; 32768];
    let n = text_for(case, book, &mut text);
    out.write_all(&text[..n])
}

// The book's bytes; none where it can't be opened.
fn read_book<F: Files>(files: &F, buf: &mut [u8]) -> Result<usize, ReadFailed>
    ensures { Holds (told result) buf.new }
{
    match File::open(files, "types.book") {
        Ok(mut file) => file_input::read_file(&mut file, buf),
        Err(_) => Ok(0),
    }
}

// Prints the text for a case, with the book that is read now.
fn print_with_book<F: Files, P: Print, E: Print>(
    files: &F,
    out: &P,
    error: &E,
    case: &[u8],
) -> io::Result<()> {
    let mut book = [0u8; 4096];
    let Ok(n) = read_book(files, &mut book) else {
        return error.println("shift: types.book could not be read to its end");
    };
    print_for(out, case, &book[..n])
}

fn main(rt: HostRuntime) {
    let mut case = [0u8; 4096];
    let Ok(n) = file_input::read_file(&mut rt.stdin(), &mut case) else {
        let _ = eprintln!(rt; "shift: the case on standard input could not be read to its end");
        return;
    };
    let _ = print_with_book(&rt, &rt.stdout(), &rt.stderr(), &case[..n]);
}
