// The table of a train's type, and case and book together.
#![tactic(auto)]

ghost use Rattle.std.specs.Prelude.{◌≡◌, Bool, ℕ, ◌+◌, ◌-◌, ◌/◌, ◌≤◌, ◌<◌, length};
ghost use Rattle.std.specs.List.{slice_get};
ghost use Rattle.rules.specs.Files as files;
ghost use Rattle.file_fields.specs.Fields.{body_at};
ghost use Rattle.file_lookup.specs.Lookup.{is_table, table_place, untabled, lacks, lacking_place, train_places, nth_place, Tests, found};
ghost use Rattle.file_lookup.specs.Answers.{files_of, in_file, Looked, TrainTable};
ghost use Rattle.file_lookup.specs.Told.{told};

use file_fields::refusals::{Fault, Refusal};
use file_fields::{Field, limits};
use file_reader::{Counts, Misread};

// How large an accepted case is.
#[derive(Clone, Copy)]
pub struct Sizes {
    pub stations: usize,
    pub tracks: usize,
    pub trains: usize,
    pub couples: usize,
}

// Whether the field at i is a delay table of type t.
#[tactic(auto, unfolding(crate::specs::Lookup::is_table))]
fn is_table(file: &[u8], t: usize, i: usize) -> bool
    requires { i + 3 ≤ length file.now }
    ensures { result ≡ is_table file.now t i }
{
    file_fields::byte(file, i) == limits::TABLE && file_fields::byte(file, i + 3) == t
}

// The offset of the field that passes the test after n others that do.
fn nth_place<F: Fn(usize) -> bool>(file: &[u8], n: usize, passes: F) -> Option<usize>
    requires { (i : ℕ) → i + 3 ≤ length file.now → F.pre passes i }
    ensures { (test : ℕ → Bool) → Tests (F.post passes) file.now test → result ≡ nth_place test file.now n }
{
    let mut left = n;
    let mut i = 0;
    while let Field::Whole { end, .. } = file_fields::field_at(file, i) {
        if passes(i) {
            if left == 0 {
                return Some(i);
            }
            left -= 1;
        }
        i = end;
    }
    None
}

// The offset of the table of type t.
fn table_at(file: &[u8], t: usize) -> Option<usize>
    ensures { result ≡ found (length file.now) (table_place file.now t) }
{
    nth_place(file, 0, |i| is_table(file, t, i))
}

// The body of the field at i, nothing where there is no whole field.
fn body_at(file: &[u8], i: usize) -> &[u8]
    ensures { result.now ≡ body_at file.now i }
{
    let Field::Whole { end, .. } = file_fields::field_at(file, i) else {
        return &[];
    };
    &file[i + 3..end]
}

// The table in the case is used, and otherwise the one in the book.
// A rule of the project: lookup takes both files as slices and answers the table's part of one; so the two stay two parameters wherever they go.
// Where neither has the table the part is empty, as `IsFirst` in `Looked` and `body_at` say; no table of a sound file is empty.
pub fn table<'a>(case: &'a [u8], book: &'a [u8], t: usize) -> &'a [u8]
    ensures { Looked case.now book.now t result.now }
{
    if let Some(i) = table_at(case, t) {
        return body_at(case, i);
    }
    match table_at(book, t) {
        Some(j) => body_at(book, j),
        None => &[],
    }
}

// Whether neither file has a table of type t.
fn no_table(case: &[u8], book: &[u8], t: usize) -> bool
    ensures { result ≡ untabled case.now book.now t }
{
    table_at(case, t).is_none() && table_at(book, t).is_none()
}

// Whether the field at i is a train whose type has no table.
#[tactic(auto, unfolding(crate::specs::Lookup::lacks))]
fn lacks_table(case: &[u8], book: &[u8], i: usize) -> bool
    requires { i + 3 ≤ length case.now }
    ensures { result ≡ lacks case.now book.now i }
{
    file_fields::byte(case, i) == limits::TRAIN
        && no_table(case, book, file_fields::byte(case, i + 4))
}

// The offset of the first train whose type has no table.
fn lacking_at(case: &[u8], book: &[u8]) -> Option<usize>
    ensures { result ≡ found (length case.now) (lacking_place case.now book.now) }
{
    nth_place(case, 0, |i| lacks_table(case, book, i))
}

// The offset of train k's field.
fn train_at(case: &[u8], k: usize) -> Option<usize>
    ensures { result ≡ slice_get (train_places case.now) k }
{
    nth_place(case, k, |i| file_fields::byte(case, i) == limits::TRAIN)
}

// The table of train k.
// Where there is no train k its type is 0, as `TrainTable` has it: its `train_place` is then the case's end, past which a byte is 0.
pub fn train_table<'a>(case: &'a [u8], book: &'a [u8], k: usize) -> &'a [u8]
    ensures { TrainTable case.now book.now k result.now }
{
    let t = train_at(case, k).map_or(0, |i| file_fields::byte(case, i + 4));
    table(case, book, t)
}

// How many pairs of a delay and a weight a table's body has.
pub fn pairs(body: &[u8]) -> usize
    ensures { result ≡ (length body.now - 1) / 2 }
{
    body.len().saturating_sub(1) / 2
}

// What reading a file (0 case, 1 book) came to.
fn in_file(file: usize, reading: Result<Counts, Misread>) -> Result<Counts, Refusal>
    ensures { result ≡ in_file file reading }
{
    reading.map_err(|misread| Refusal {
        fault: misread.fault,
        file,
        place: misread.place,
    })
}

// Reads the case, then the book, then looks for a train whose type has no table.
// `Sizes` is what `sizes_of` says of a case; the count of its tables is of no use above the files, so four of the five are handed on.
pub fn read_files(case: &[u8], book: &[u8]) -> Result<Sizes, Refusal>
    ensures { told result ≡ files_of (files.files case.now book.now) }
{
    let counts = in_file(0, file_reader::read_case(case))?;
    in_file(1, file_reader::read_book(book))?;
    if let Some(place) = lacking_at(case, book) {
        return Err(Refusal {
            fault: Fault::NoTable,
            file: 0,
            place,
        });
    }
    Ok(Sizes {
        stations: counts.stations,
        tracks: counts.tracks,
        trains: counts.trains,
        couples: counts.couples,
    })
}
