// A run laid into lent memory: the joint run after the files and the arguments, its rows and its weights as bytes; and what a call answers.
#![tactic(auto)]

ghost use Rattle.std.specs.Prelude.{◌≡◌, [], ◌≤◌, length, replicate};
ghost use Rattle.rules.specs.Refusals.Result.{answer};
ghost use Rattle.rules.specs.Files as rulesFiles;
ghost use Rattle.rules.specs.Calls.{filled};
ghost use Rattle.file_lookup.specs.Told.{told};
ghost use Rattle.laying.specs.Answers.{refused_with, answered};
ghost use Rattle.laying.specs.Told.{refusal_of, InReach, answer_to, Reached};
ghost use Rattle.laying.specs.Steps.{Fits, Begins, Start, run_of, Ran, Filled, Laid};

use file_fields::refusals::{Fault, Refusal};
use file_lookup::Sizes;

// What the single run, the run and the listing answer; `refusal` is 0 if the call was answered.
// C reads it as lampreysong_answer of include/lampreysong.h, so a refusal is a number with two beside it, and no Result.
#[repr(C)]
#[derive(Clone, Copy)]
pub struct Answer {
    pub refusal: u16,
    pub file: u16,
    pub place: u32,
    pub value: u64,
}

// In the tables: how many entries a list may have.
const ROOM: u64 = 3;

// A run whose list passes its room.
const NO_ROOM: Refusal = Refusal {
    fault: Fault::NoRoom,
    file: 0,
    place: 0,
};

// A refusal as an answer, by its number, file and place.
pub fn refused(number: usize, file: usize, place: usize) -> Answer
    requires { Fits number file place }
    ensures { result ≡ refused_with (record { number = number; file = file; place = place }) }
{
    Answer {
        refusal: number as u16,
        file: file as u16,
        place: place as u32,
        value: 0,
    }
}

// A refusal of the files, the arguments or the run as an answer.
// That file and place fit is a clause: it is shown where a reading ends (refused-place), not where each Refusal is built, so no field can say it.
pub fn refused_for(refusal: Refusal) -> Answer
    requires { InReach refusal }
    ensures { result ≡ refused_with (refusal_of refusal) }
{
    let number = usize::from(refusal.fault.number());
    refused(number, refusal.file, refusal.place)
}

pub fn answered(value: u64) -> Answer
    ensures { result ≡ answered value }
{
    Answer {
        refusal: 0,
        file: 0,
        place: 0,
        value,
    }
}

// What a call comes to, as an answer.
// No From: the conversion asks that a refusal's numbers fit (Reached), and From asks nothing.
pub fn answer_to(outcome: Result<u64, Refusal>) -> Answer
    requires { Reached outcome }
    ensures { result ≡ answer_to outcome }
{
    match outcome {
        Ok(value) => answered(value),
        Err(refusal) => refused_for(refusal),
    }
}

// Sets the required rows and weights to zero.
// Rows and weights stay two parameters, as the C interface lends them: a struct of the two slices would be taken apart again at each use.
fn clear(rows: &mut [u8], weights: &mut [u8])
    requires { (16384 ≤ length rows.old) × (40320 ≤ length weights.old) }
    ensures { (rows.new ≡ filled 16384 [] rows.old) × (weights.new ≡ filled 40320 [] weights.old) }
{
    out_images::clear(rows, 16384);
    out_images::clear(weights, 40320);
}

// Fills the required rows with the first n rows of the list, and the required weights.
fn fill(
    list: &[u64; 2050],
    n: usize,
    trains: usize,
    ws: &[u64; 5760],
    rows: &mut [u8],
    weights: &mut [u8],
)
    requires { (n ≤ 1024) × (16384 ≤ length rows.old) × (40320 ≤ length weights.old) }
    ensures { Filled n trains list.now ws.now rows.old weights.old rows.new weights.new }
{
    out_rows::put_rows(&list[..n * 2], trains, rows);
    out_images::put_weights(ws, weights);
}

// The joint run of an accepted case to a stop minute: the number of its entries, or none where they pass the room.
fn run_to<'a>(
    case: &'a [u8],
    book: &'a [u8],
    sizes: Sizes,
    stop: usize,
    tables: &mut [u64; 2352],
    list: &mut [u64; 2050],
    ws: &mut [u64; 5760],
) -> Option<usize>
    requires begins { Begins case.now book.now stop sizes }
    requires none { ws.old ≡ replicate 5760 0 }
    ensures { (C : rulesFiles.Case) → rulesFiles.files case.now book.now ≡ answer C → Ran C stop result list.new ws.new tables.new }
{
    file_plan::fill(case, book, sizes, tables);
    let room = words::at(tables, ROOM) as usize;
    let end = room * 2 + 2;
    let w = joint::run(tables, &mut list[..end], ws, stop as u64);
    if w == end {
        return None;
    }
    Some(w / 2)
}

// The run after the files and the arguments: refused, or filled into rows and weights, and the number of its entries.
// Case and book stay two slices, as DECISIONS.md has them of file_lookup, and the calls of the C interface hand them over.
pub fn lay<'a>(
    case: &'a [u8],
    book: &'a [u8],
    files: Result<Sizes, Refusal>,
    stop: usize,
    tables: &mut [u64; 2352],
    ws: &mut [u64; 5760],
    rows: &mut [u8],
    weights: &mut [u8],
) -> Result<u64, Refusal>
    requires start { Start case.now book.now stop (told files) }
    requires long { (16384 ≤ length rows.old) × (40320 ≤ length weights.old) }
    requires none { ws.old ≡ replicate 5760 0 }
    ensures laid { Laid (run_of case.now book.now stop (told files)) rows.old weights.old (answer_to result) tables.new ws.new rows.new weights.new }
    ensures reached { Reached result }
{
    let sizes = match files {
        Ok(sizes) => sizes,
        Err(refusal) => {
            clear(rows, weights);
            return Err(refusal);
        }
    };
    let mut list = [0; 2050];
    let Some(n) = run_to(case, book, sizes, stop, tables, &mut list, ws) else {
        clear(rows, weights);
        return Err(NO_ROOM);
    };
    fill(&list, n, sizes.trains, ws, rows, weights);
    Ok(n as u64)
}
