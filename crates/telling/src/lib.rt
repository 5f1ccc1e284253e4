// What is told of an answered run: the listing's text and the figures, from the words that it stands in.
#![tactic(auto)]

ghost use Rattle.std.specs.Prelude.{◌≡◌, ◌≤◌, length};
ghost use Rattle.rules.specs.Answers.{punctuality_number, punctuality_value};
ghost use Rattle.out_figures.specs.Answers as told;
ghost use Rattle.telling.specs.Answers.{train_figures};
ghost use Rattle.telling.specs.Steps.{Printable, Printed, Measurable, Measured};

use laying::Answer;
use out_figures::{Figures, Punctuality};

// In the tables, a word for each train: its planned arrival at its last station.
const PLANS: u64 = 24;

// What the figures answer: all but the first three fields are 0 if the call was refused.
// C reads it as lampreysong_train_figures of include/lampreysong.h, so its cases are numbers and a share that is not there is 0.
#[repr(C)]
#[derive(Clone, Copy)]
pub struct TrainFigures {
    pub refusal: u16,
    pub file: u16,
    pub place: u32,
    pub punctuality: u32,
    pub zero: u32,
    pub share: f64,
    pub on_time: f64,
    pub late: f64,
    pub not_arrived: f64,
    pub lateness: u64,
    pub arrived: u64,
    pub kept: [u64; 4],
}

// The listing from the words of an answered run.
pub fn print(tables: &[u64], ws: &[u64], text: &mut [u8]) -> Answer
    requires { Printable tables.now × (32768 ≤ length text.old) }
    ensures { Printed tables.now ws.now text.old result text.new }
{
    let trains = words::at(tables, words::TRAINS) as usize;
    let last = words::at(tables, words::LAST_MINUTE) as usize;
    let length = out_listing::write(trains, last, ws, &mut text[..32768]);
    laying::answered(length as u64)
}

// The figures from the words of an answered run.
pub fn measure(tables: &[u64], ws: &[u64], train: u64, limit: u16) -> Figures
    requires { Measurable tables.now ws.now train }
    ensures { Measured tables.now ws.now train limit result }
{
    let plan = words::at(tables, PLANS + train);
    let last = words::at(tables, words::LAST_MINUTE);
    let trains = words::at(tables, words::TRAINS) as usize;
    let total = out_listing::whole_weight(trains);
    out_figures::figures_of(ws, train, plan, last, total, limit)
}

// The number of a punctuality, and its share, 0 where it has none.
// The two fields that C reads; punctuality_number and punctuality_value of rules say them, each case by itself.
fn number_and_share(p: Punctuality) -> (u32, f64)
    ensures { result ≡ (punctuality_number (told.case_of p), punctuality_value (told.case_of p)) }
{
    match p {
        Punctuality::Refused => (0, 0.0),
        Punctuality::Never => (1, 0.0),
        Punctuality::Always => (2, 0.0),
        Punctuality::Share(share) => (3, share),
    }
}

// Figures beside the refusal of an answer.
pub fn train_figures(a: Answer, f: Figures) -> TrainFigures
    ensures { result ≡ train_figures a f }
{
    let (punctuality, share) = number_and_share(f.punctuality);
    TrainFigures {
        refusal: a.refusal,
        file: a.file,
        place: a.place,
        punctuality,
        zero: 0,
        share,
        on_time: f.shares.on_time,
        late: f.shares.late,
        not_arrived: f.shares.not_arrived,
        lateness: f.sum,
        arrived: f.weight,
        kept: [0; 4],
    }
}

// The figures of a refused call: all 0 but the refusal.
pub fn refused_figures(a: Answer) -> TrainFigures
    ensures { result ≡ train_figures a told.no_figures }
{
    train_figures(a, out_figures::refused())
}
