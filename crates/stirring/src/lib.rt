// One pass of one train for one element, where a row of the pair was stirred: the rows, the weights that arrive, and what is noted of who waits.
#![tactic(auto)]

ghost use Rattle.std.specs.Prelude.{◌≡◌, true, false, ◌+◌, ◌*◌, ◌/◌, ◌<◌, ◌≤◌, length, take, get_or, set};
ghost use Rattle.theory_lists.specs.Every.{Every};
ghost use Rattle.rows.specs.Rows.{rows_of, rows_in};
ghost use Rattle.asking.specs.Ask.{asks_of, reach_of, stirs_of, Found, Within};
ghost use Rattle.serving.specs.Pass.{Lends, Keeps};
ghost use Rattle.waiting.specs.Notes.{Flagged};
ghost use Rattle.visiting.specs.Visit.{pass_of, read, Placed, Keyed, Kept, Ways, Noted, Seen};

use asking::Turn;
use visiting::Plan;

// What a run works with beside its rows and weights: the bench of its passes, and its notes.
// Rows and weights stay beside it: `joint::run` is lent them apart, and `read` and `Seen` speak of each by itself.
#[derive(Drop)]
pub struct Work<'a> {
    pub bench: serving::Bench<'a>,
    pub notes: &'a mut waiting::Notes,
}

// The first row that is stirred, the key of the rows that ask, and what stirred their pair.
#[derive(Clone, Copy)]
struct Stirred {
    row: usize,
    key: u64,
    by: u64,
}

// The pass of a turn over n rows: the place after the last word, or the length of the rows for refusal 12.
fn served(
    rows: &mut [u64],
    n: usize,
    first: Stirred,
    plan: &Plan<'_>,
    work: &mut Work<'_>,
    weights: &mut [u64],
    turn: Turn,
) -> usize
    requires lent { Lends plan.now.words.now rows.old work.old.bench }
    requires within { Within turn.minute turn.place turn.train }
    requires first_lt_n { (first.row < n) × (n * 2 < length rows.old) × Every (λ x. stirs_of first.key turn.minute first.by x ≡ false) (rows_in first.row rows.old) × (reach_of first.key turn.minute (get_or rows.old (first.row * 2) 0) ≡ true) }
    requires flagged { Flagged work.old.notes.now × Noted plan.now.words.now turn.minute work.old.notes.now (rows_in n rows.old) × Keyed plan.now.words.now turn.minute turn.place turn.train first.key (rows_in n rows.old) × (first.by ≡ get_or work.old.notes.now (turn.train * 128 + turn.place) 0) }
    ensures keeps { Keeps work.old.bench work.new.bench }
    ensures notes { work.new.notes.ghost_name ≡ work.old.notes.ghost_name }
    ensures seen { Seen plan.now.words.now turn.minute (pass_of plan.now.words.now turn.minute turn.place turn.train (read (n * 2) rows.old weights.old)) result rows.new weights.new work.new.notes.now }
{
    let s = rows[first.row * 2];
    let q = asking::assign(plan.words, turn, s);
    let z = passing::pass(rows, n, first.row, &mut work.bench, first.key, first.by, q);
    visiting::arrive(plan.words, &work.bench.entering[..z.entering], weights, q);
    visiting::settle(plan.words, work.notes, q, s / 4096 % 128, z.moved);
    z.place
}

// No row of the pair i waits.
fn dismiss(notes: &mut waiting::Notes, i: usize)
    requires { i < 1024 }
    ensures { notes.new ≡ set (set notes.old i 0) (1152 + i) 0 }
{
    notes[i] = 0;
    notes[waiting::WAITING + i] = 0;
}

// The first of the rows that asks in the turn: few rows are asked one by one, and of many those of the one place that leads there.
fn seek(rows: &[u64], tables: &[u64], turn: Turn) -> Option<usize>
    requires { Within turn.minute turn.place turn.train × Ways tables.now × Placed (rows_of rows.now) }
    ensures { Found (λ x b. asks_of tables.now turn.minute turn.place turn.train x.state ≡ b) 0 (length rows.now / 2) rows.now result }
{
    if rows.len() / 2 < 64 {
        return asking::first(rows, tables, turn);
    }
    let p = asking::before(tables, turn.train, turn.place)?;
    asking::first_reached(rows, turn.train * 524288 + p * 4096, turn.minute)
}

// The pass of a turn over the first w words, where a row of its pair was stirred; what is refused stays refused.
// The count of words stays beside the rows, here and above: no heap, so the list grows and shrinks within lent words, and refusal 12 is their length.
pub fn visit(
    rows: &mut [u64],
    w: usize,
    plan: &Plan<'_>,
    work: &mut Work<'_>,
    weights: &mut [u64],
    turn: Turn,
) -> usize
    requires lent { Lends plan.now.words.now rows.old work.old.bench }
    requires within { Within turn.minute turn.place turn.train }
    requires kept { Kept w rows.old × Flagged work.old.notes.now × (w < length rows.old → Noted plan.now.words.now turn.minute work.old.notes.now (rows_of (take w rows.old))) }
    ensures keeps { Keeps work.old.bench work.new.bench }
    ensures notes { work.new.notes.ghost_name ≡ work.old.notes.ghost_name }
    ensures seen { Seen plan.now.words.now turn.minute (pass_of plan.now.words.now turn.minute turn.place turn.train (read w rows.old weights.old)) result rows.new weights.new work.new.notes.now }
{
    if w == rows.len() {
        return w;
    }
    let i = (turn.train * 128 + turn.place) as usize;
    let by = work.notes[i];
    if by == 0 {
        return w;
    }
    let n = w / 2;
    let Some(f) = seek(&rows[..n * 2], plan.words, turn) else {
        dismiss(work.notes, i);
        return w;
    };
    let s = rows[f * 2];
    let key = s - s % 4096;
    let Some(row) = asking::next(&rows[..n * 2], f, key, turn.minute, by) else {
        work.notes[i] = 0;
        return w;
    };
    served(rows, n, Stirred { row, key, by }, plan, work, weights, turn)
}
