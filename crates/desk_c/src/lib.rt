// The planning desk's calls for C, declared in include/lampreysong.h: one export for each call of crate desk, with the same clause. A slice is handed over as its
// start and its length.
// Rattle makes of a crate a library or what C links, not both, so each call of desk has an export of its own here (the C interface).
#![tactic(auto)]

ghost use Rattle.desk.specs.Answers.{SingleGives, RunGives, ListingGives, FiguresGives, PlainGives, PartGives, FieldGives};

use desk::Viewed;
use laying::Answer;
use telling::TrainFigures;

// The minute in which the choice brings the train to its last station, 65,535 for none by the last minute.
#[unsafe(no_mangle)]
pub extern "C" fn lampreysong_single<'a>(
    case: &'a [u8],
    book: &'a [u8],
    choice: &[u8],
    train: u64,
) -> Answer
    ensures { SingleGives case.now book.now choice.now train result }
{
    desk::lampreysong_single(case, book, choice, train)
}

// The joint run to a stop minute: rows and weights, and the number of entries.
#[unsafe(no_mangle)]
pub extern "C" fn lampreysong_run<'a>(
    case: &'a [u8],
    book: &'a [u8],
    stop: u64,
    rows: &mut [u8],
    weights: &mut [u8],
) -> Answer
    ensures { RunGives case.now book.now stop rows.old weights.old result rows.new weights.new }
{
    desk::lampreysong_run(case, book, stop, rows, weights)
}

// The listing over the whole window, with rows and weights after the last minute, and its number of bytes.
#[unsafe(no_mangle)]
pub extern "C" fn lampreysong_listing<'a>(
    case: &'a [u8],
    book: &'a [u8],
    rows: &mut [u8],
    weights: &mut [u8],
    text: &mut [u8],
) -> Answer
    ensures { ListingGives case.now book.now rows.old weights.old text.old result rows.new weights.new text.new }
{
    desk::lampreysong_listing(case, book, rows, weights, text)
}

// The figures of a train for a limit in minutes, with rows and weights after the last minute.
#[unsafe(no_mangle)]
pub extern "C" fn lampreysong_figures<'a>(
    case: &'a [u8],
    book: &'a [u8],
    train: u64,
    limit: u16,
    rows: &mut [u8],
    weights: &mut [u8],
) -> TrainFigures
    ensures { FiguresGives case.now book.now train limit rows.old weights.old result rows.new weights.new }
{
    desk::lampreysong_figures(case, book, train, limit, rows, weights)
}

// Every choice by itself to a stop minute: the weights, and the number of choices run.
#[unsafe(no_mangle)]
pub extern "C" fn lampreysong_plain<'a>(
    case: &'a [u8],
    book: &'a [u8],
    stop: u64,
    weights: &mut [u8],
) -> Answer
    ensures { PlainGives case.now book.now stop weights.old result weights.new }
{
    desk::lampreysong_plain(case, book, stop, weights)
}

// The choices numbered from `first` on, at most `most` of them, added to the weights as they are lent; the number of choices run.
#[unsafe(no_mangle)]
pub extern "C" fn lampreysong_plain_part<'a>(
    case: &'a [u8],
    book: &'a [u8],
    stop: u64,
    first: u64,
    most: u64,
    weights: &mut [u8],
) -> Answer
    ensures { PartGives case.now book.now stop first most weights.old result weights.new }
{
    desk::lampreysong_plain_part(case, book, stop, first, most, weights)
}

// What the field viewer gives at a place of a file, and its place then: past the field, or the same if none was given.
#[unsafe(no_mangle)]
pub extern "C" fn lampreysong_field(file: &[u8], place: u64) -> Viewed
    ensures { FieldGives file.now place result }
{
    desk::lampreysong_field(file, place)
}
