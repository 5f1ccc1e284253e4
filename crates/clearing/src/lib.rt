// The start of a minute: the blocks that ended go, and rows that are due now wait; both only where a row shows such a minute.
#![tactic(auto)]

ghost use Rattle.std.specs.Prelude.{◌≡◌, false, ◌+◌, ◌*◌, ◌/◌, ◌≤◌, ◌<◌, length, take, IfSome, IfNone};
ghost use Rattle.rules.specs.Sweep.{first_to_go};
ghost use Rattle.theory_lists.specs.Every.{Every};
ghost use Rattle.rows.specs.Rows.{rows_of, rows_in, ended_of, Swept};
ghost use Rattle.rows.specs.Swept.{Closing};
ghost use Rattle.asking.specs.Ask.{Mutual};
ghost use Rattle.waiting.specs.Notes.{Flagged};
ghost use Rattle.visiting.specs.Visit.{Kept, Ways, Noted};
ghost use Rattle.clearing.specs.Clear.{marked_of, Leaves, Marks, Due, Cleared, Enrols};

// The first of the rows that is a block that has ended by t. No row is written: what stands before it is not moved.
// By the row's number, here and below, for the reason at `rows::gather`; `close_up` writes rows, too.
// Not by the search of `asking`, which tells what each row answers: this one tells by `first_to_go`, with which the moves of `Swept` begin.
fn first_ended(rows: &[u64], t: u64) -> Option<usize>
    ensures found { IfSome result (λ i. (i < length rows.now / 2) × (i ≡ first_to_go (λ x. ended_of t x.state) (rows_of rows.now))) }
    ensures absent { IfNone result (length rows.now / 2 ≡ first_to_go (λ x. ended_of t x.state) (rows_of rows.now)) }
{
    for i in 0..rows.len() / 2 {
        if rows::ended(rows[i * 2], t) {
            return Some(i);
        }
    }
    None
}

// The blocks that have ended by t go from the rows: each row is read once, in turn, and is told to the pairs that meet it if it goes;
// if it stays, it is written once, to the next free place. Returns how many rows are left.
fn close_up(rows: &mut [u64], tables: &[u64], notes: &mut waiting::Notes, t: u64) -> usize
    requires { Flagged notes.old × Mutual tables.now }
    ensures { Closing t (length rows.old / 2) rows.old result rows.new × Leaves tables.now t (rows_of rows.old) notes.old notes.new }
{
    let mut j = 0;
    for i in 0..rows.len() / 2 {
        let at = i * 2;
        let s = rows[at];
        let c = rows[at + 1];
        if rows::ended(s, t) {
            let e = s / 4096 % 128;
            waiting::tell_left(tables, notes, e, c);
        } else {
            rows[j * 2] = s;
            rows[j * 2 + 1] = c;
            j += 1;
        }
    }
    j
}

// The blocks that have ended by t go from the first n rows in one sweep, and the pairs that meet them are told.
// Only the rows from the first of them on are lent to be written, and each that stays is written at most once. Returns how many rows are left.
// The count stays beside the rows: `Swept` tells by its field `past` of the words behind them, too.
fn sweep(rows: &mut [u64], n: usize, tables: &[u64], notes: &mut waiting::Notes, t: u64) -> usize
    requires { (n * 2 ≤ length rows.old) × Flagged notes.old × Mutual tables.now }
    ensures { Swept t n rows.old result rows.new × Leaves tables.now t (rows_in n rows.old) notes.old notes.new }
{
    let Some(f) = first_ended(&rows[..n * 2], t) else {
        return n;
    };
    let left = close_up(&mut rows[f * 2..n * 2], tables, notes, t);
    f + left
}

// If s is a standing state that is due at t, its rows with covers among c wait now.
#[tactic(auto, unfolding(crate::specs::Clear::marked_of))]
fn call(tables: &[u64], notes: &mut waiting::Notes, s: u64, c: u64, t: u64)
    requires { Ways tables.now × (s / 524288 < 8) }
    ensures { notes.new ≡ marked_of tables.now t s c notes.old }
{
    if s % 4096 != t {
        return;
    }
    visiting::wake_due(tables, notes, s, t, c);
}

// The rows that are due at t wait now.
fn mark(rows: &[u64], tables: &[u64], notes: &mut waiting::Notes, t: u64)
    requires { Flagged notes.old × Ways tables.now × Every (λ r. r.state / 524288 < 8) (rows_of rows.now) }
    ensures { Marks tables.now t (rows_of rows.now) notes.old notes.new }
{
    for i in 0..rows.len() / 2 {
        let s = rows[i * 2];
        let c = rows[i * 2 + 1];
        call(tables, notes, s, c, t);
    }
}

// The blocks that have ended by t go from the first w words, if one shows that it ends at t. Returns how many words are left.
// The count of words stays beside the rows: no heap, so the list is a part of lent words, and later passes write behind it.
pub fn clear(
    rows: &mut [u64],
    w: usize,
    notes: &mut waiting::Notes,
    tables: &[u64],
    t: u64,
) -> usize
    requires { Kept w rows.old × Flagged notes.old × (t < 720) × Ways tables.now × Due tables.now t notes.old (rows_of (take w rows.old)) }
    ensures { Cleared tables.now t (rows_of (take w rows.old)) w result rows.new notes.new }
{
    if notes[waiting::ENDING + t as usize] == 0 {
        return w;
    }
    let m = sweep(rows, w / 2, tables, notes, t);
    m * 2
}

// The rows that are due at t wait now, if one shows that minute.
pub fn wake(rows: &[u64], tables: &[u64], notes: &mut waiting::Notes, t: u64)
    requires { Flagged notes.old × (t < 720) × Ways tables.now × Due tables.now t notes.old (rows_of rows.now) × Every (λ r. ended_of t r.state ≡ false) (rows_of rows.now) }
    ensures { Flagged notes.new × Noted tables.now t notes.new (rows_of rows.now) }
{
    if notes[waiting::DUE + t as usize] == 0 {
        return;
    }
    mark(rows, tables, notes, t);
}

// The minutes of the rows are shown.
pub fn enrol(rows: &[u64], notes: &mut waiting::Notes)
    requires { Flagged notes.old }
    ensures { Enrols (rows_of rows.now) notes.new }
{
    for i in 0..rows.len() / 2 {
        let s = rows[i * 2];
        visiting::show(notes, s);
    }
}
