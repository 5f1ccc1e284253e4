// The planning desk's calls, on numbers and byte slices; crate desk_c exports them to C. Nothing is kept between calls.
// A call is lent memory for what it fills: rows, weights and text; docs/FORMATS.md has their images.
#![tactic(auto)]

ghost use Rattle.std.specs.Prelude.{◌≡◌, replicate};
ghost use Rattle.rules.specs.Calls.{short};
ghost use Rattle.laying.specs.Steps.{Begins};
ghost use Rattle.desk.specs.Answers.{lent_three, SingleGives, RunGives, ListingGives, FiguresGives, PlainGives, PartGives, FieldGives};
ghost use Rattle.desk.specs.Begun.{Begun};
ghost use Rattle.desk.specs.Fields.{none_given};
ghost use Rattle.desk.specs.Plain.{Ran};

use file_fields::Field;
use file_fields::refusals::{Fault, Refusal};
use file_lookup::Sizes;
use laying::Answer;
use telling::TrainFigures;

// What the field viewer gives at a place: `refusal` is 1 if a field runs past the end, `given` is 1 if there is a whole one.
// C reads it as lampreysong_viewed of include/lampreysong.h, so whether a field was given is a number beside it, and no Option.
#[repr(C)]
#[derive(Clone, Copy)]
pub struct Viewed {
    pub refusal: u16,
    pub given: u16,
    pub tag: u16,
    pub size: u16,
    pub next: u64,
}

// Lent memory that is shorter than required.
const TOO_SHORT: Refusal = Refusal {
    fault: Fault::TooShort,
    file: 0,
    place: 0,
};

// Whether lent memory is shorter than required, where `asked` bytes of text are.
fn short(rows: &[u8], weights: &[u8], text: &[u8], asked: usize) -> bool
    ensures { result ≡ short asked (lent_three rows.now weights.now text.now) }
{
    rows.len() < 16384 || (weights.len() < 40320 || text.len() < asked)
}

// The minute in which the choice brings the train to its last station, 65,535 for none by the last minute.
pub fn lampreysong_single<'a>(case: &'a [u8], book: &'a [u8], choice: &[u8], train: u64) -> Answer
    ensures { SingleGives case.now book.now choice.now train result }
{
    match file_arguments::for_single(case, book, choice, train as usize) {
        Err(refusal) => laying::refused_for(refusal),
        Ok(sizes) => {
            let mut tables = [0; 2352];
            file_plan::fill(case, book, sizes, &mut tables);
            laying::answered(single::arrival(&tables, choice, train))
        }
    }
}

// The joint run to a stop minute: rows and weights, and the number of entries.
pub fn lampreysong_run<'a>(
    case: &'a [u8],
    book: &'a [u8],
    stop: u64,
    rows: &mut [u8],
    weights: &mut [u8],
) -> Answer
    ensures { RunGives case.now book.now stop rows.old weights.old result rows.new weights.new }
{
    if short(rows, weights, &[], 0) {
        return laying::refused_for(TOO_SHORT);
    }
    let stop = stop as usize;
    let files = file_arguments::for_stop(case, book, stop);
    let mut tables = [0; 2352];
    let mut ws = [0; 5760];
    let laid = laying::lay(case, book, files, stop, &mut tables, &mut ws, rows, weights);
    laying::answer_to(laid)
}

// The listing over the whole window, with rows and weights after the last minute, and its number of bytes.
// The next lines stand in the figures too: tables and weights are locals of fixed memory, and a function that made them would copy 65 KB.
pub fn lampreysong_listing<'a>(
    case: &'a [u8],
    book: &'a [u8],
    rows: &mut [u8],
    weights: &mut [u8],
    text: &mut [u8],
) -> Answer
    ensures { ListingGives case.now book.now rows.old weights.old text.old result rows.new weights.new text.new }
{
    if short(rows, weights, text, 32768) {
        return laying::refused_for(TOO_SHORT);
    }
    let files = file_lookup::read_files(case, book);
    let last = file_fields::word(case, 3);
    let mut tables = [0; 2352];
    let mut ws = [0; 5760];
    if let Err(refusal) = laying::lay(
        case,
        book,
        files,
        last,
        &mut tables,
        &mut ws,
        rows,
        weights,
    ) {
        out_images::clear(text, 32768);
        return laying::refused_for(refusal);
    }
    telling::print(&tables, &ws, text)
}

// The figures of a train for a limit in minutes, with rows and weights after the last minute.
pub fn lampreysong_figures<'a>(
    case: &'a [u8],
    book: &'a [u8],
    train: u64,
    limit: u16,
    rows: &mut [u8],
    weights: &mut [u8],
) -> TrainFigures
    ensures { FiguresGives case.now book.now train limit rows.old weights.old result rows.new weights.new }
{
    if short(rows, weights, &[], 0) {
        return telling::refused_figures(laying::refused_for(TOO_SHORT));
    }
    let files = file_arguments::for_train(case, book, train as usize);
    let last = file_fields::word(case, 3);
    let mut tables = [0; 2352];
    let mut ws = [0; 5760];
    if let Err(refusal) = laying::lay(
        case,
        book,
        files,
        last,
        &mut tables,
        &mut ws,
        rows,
        weights,
    ) {
        return telling::refused_figures(laying::refused_for(refusal));
    }
    let figures = telling::measure(&tables, &ws, train, limit);
    telling::train_figures(laying::answered(0), figures)
}

// The choices of an accepted case numbered from `first` on, at most `most` of them, each run by itself to a stop minute: what they add, and how many they are.
// First and most stay two numbers: the C interface hands them over so, and docs name plain::add_part, which takes them so.
fn run_plain<'a>(
    case: &'a [u8],
    book: &'a [u8],
    sizes: Sizes,
    stop: u64,
    first: u64,
    most: u64,
    ws: &mut [u64; 5760],
) -> u64
    requires { Begins case.now book.now stop sizes × (ws.old ≡ replicate 5760 0) }
    ensures { Ran case.now book.now stop first most result ws.new }
{
    let mut tables = [0; 2352];
    file_plan::fill(case, book, sizes, &mut tables);
    plain::add_part(&tables, stop, first, most, ws)
}

// The sizes of the files of a plain call; or its answer, where the weights are too short, or files or stop minute are refused and the weights cleared.
fn begin_plain<'a>(
    case: &'a [u8],
    book: &'a [u8],
    stop: u64,
    weights: &mut [u8],
) -> Result<Sizes, Answer>
    ensures { Begun case.now book.now stop weights.old result weights.new }
{
    if weights.len() < 40320 {
        return Err(laying::refused_for(TOO_SHORT));
    }
    match file_arguments::for_stop(case, book, stop as usize) {
        Err(refusal) => {
            out_images::clear(weights, 40320);
            Err(laying::refused_for(refusal))
        }
        Ok(sizes) => Ok(sizes),
    }
}

// Every choice by itself to a stop minute: the weights, and the number of choices run.
// This call and the next do other things with the words at the end: a closure for that would need a clause on lent memory, and seven parameters (no plainer).
pub fn lampreysong_plain<'a>(
    case: &'a [u8],
    book: &'a [u8],
    stop: u64,
    weights: &mut [u8],
) -> Answer
    ensures { PlainGives case.now book.now stop weights.old result weights.new }
{
    match begin_plain(case, book, stop, weights) {
        Err(answer) => answer,
        Ok(sizes) => {
            let mut ws = [0; 5760];
            let n = run_plain(case, book, sizes, stop, 0, u64::MAX, &mut ws);
            out_images::put_weights(&ws, weights);
            laying::answered(n)
        }
    }
}

// The choices numbered from `first` on, at most `most` of them, added to the weights as they are lent; the number of choices run.
pub fn lampreysong_plain_part<'a>(
    case: &'a [u8],
    book: &'a [u8],
    stop: u64,
    first: u64,
    most: u64,
    weights: &mut [u8],
) -> Answer
    ensures { PartGives case.now book.now stop first most weights.old result weights.new }
{
    match begin_plain(case, book, stop, weights) {
        Err(answer) => answer,
        Ok(sizes) => {
            let mut ws = [0; 5760];
            let n = run_plain(case, book, sizes, stop, first, most, &mut ws);
            out_images::add_weights(&ws, weights);
            laying::answered(n)
        }
    }
}

// No field at a place, and why: 0 at the file's end.
fn no_field(refusal: u16, place: u64) -> Viewed
    ensures { result ≡ none_given refusal place }
{
    Viewed {
        refusal,
        given: 0,
        tag: 0,
        size: 0,
        next: place,
    }
}

// What the field viewer gives at a place of a file, and its place then: past the field, or the same if none was given.
pub fn lampreysong_field(file: &[u8], place: u64) -> Viewed
    ensures { FieldGives file.now place result }
{
    match file_fields::field_at(file, place as usize) {
        Field::Whole { tag, size, end } => Viewed {
            refusal: 0,
            given: 1,
            tag: tag as u16,
            size: size as u16,
            next: end as u64,
        },
        Field::Ended => no_field(0, place),
        Field::Overrun => no_field(Fault::Overrun.number(), place),
    }
}
