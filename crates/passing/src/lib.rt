// The pass of one train for one element on rows of two words: each asker is served in its row, and what enters is put at the end.
#![tactic(auto)]

ghost use Rattle.std.specs.Prelude.{◌≡◌, false, ◌*◌, ◌/◌, ◌≤◌, ◌<◌, length};
ghost use Rattle.rules.specs.Lists.{each};
ghost use Rattle.theory_lists.specs.Every.{Every};
ghost use Rattle.rows.specs.Rows.{words, rows_of, rows_in};
ghost use Rattle.asking.specs.Ask.{met_for, stirs_of};
ghost use Rattle.serving.specs.Pass.{hold_by, enter_by, covers_by, pass_by, met_in, Went, Two, Passed, Roomy, Keeps};

use cut::Meets;
use serving::{Bench, Ends};

// The rows of src, one run after the other, from the place d of the rows on: those that are not stirred are kept, and the one after them is served.
// The slices stay apart: a bench that lent all of them would need beside it how many rows and covers of it are read, which the slices say.
fn walk(
    src: &[u64],
    meets: &Meets<'_>,
    held: &mut [u64],
    entering: &mut [u64],
    rows: &mut [u64],
    d: usize,
    key: u64,
    u: u64,
    minute: u64,
) -> Ends
    requires { (2 ≤ length rows.old) × (length rows.old / 2 * 2 ≡ length rows.old) × (length rows.old ≤ length held.old * 2) × (length rows.old ≤ length entering.old * 2) × (d < length rows.old) × (key < 4294967296) × (minute < 2048) × (meets.now.first ≤ length meets.now.met.now) }
    ensures two { Two rows.old d (words (each (hold_by (stirs_of key minute u) (met_in meets.now.cap meets.now.first meets.now.met.now)) (rows_of src.now))) result.place rows.new entering.old 0 (each (enter_by (stirs_of key minute u) (met_in meets.now.cap meets.now.first meets.now.met.now)) (rows_of src.now)) result.entering entering.new }
    ensures every { Every (λ x. Went (hold_by (stirs_of key minute u) (met_in meets.now.cap meets.now.first meets.now.met.now) x) (enter_by (stirs_of key minute u) (met_in meets.now.cap meets.now.first meets.now.met.now) x) result.moved x) (rows_of src.now) }
{
    let mut ends = Ends {
        place: d,
        entering: 0,
        moved: 0,
    };
    let mut i = 0;
    while let Some(j) = asking::next(src, i, key, minute, u) {
        ends.place = rows::copy(src, i * 2, j * 2, rows, ends.place);
        ends = serving::serve(
            meets,
            held,
            entering,
            rows,
            ends,
            src[j * 2],
            src[j * 2 + 1],
        );
        i = j + 1;
    }
    ends.place = rows::copy(src, i * 2, src.len() / 2 * 2, rows, ends.place);
    ends
}

// The pass over the first n rows, in place, where only those that are stirred are served, of which none stands before row i: the place after the
// last word, or the length of the rows where they leave no place, how many covers have entered, and all that moved.
// The count n stays beside the rows: what enters is written past them, so the slice is all the room that they have.
pub fn pass(
    rows: &mut [u64],
    n: usize,
    i: usize,
    bench: &mut Bench<'_>,
    key: u64,
    u: u64,
    q: asking::Job,
) -> Ends
    requires space { Roomy rows.old bench.old }
    requires n_in_bounds { (n * 2 < length rows.old) × (i ≤ n) × (key < 4294967296) × (q.minute < 2048) × Every (λ x. stirs_of key q.minute u x ≡ false) (rows_in i rows.old) }
    ensures keeps { Keeps bench.old bench.new }
    ensures passed { Passed (pass_by (stirs_of key q.minute u) q (rows_in n rows.old)) (covers_by (stirs_of key q.minute u) q (rows_in n rows.old)) result rows.new bench.new.entering.now }
    ensures every { Every (λ x. Went (hold_by (stirs_of key q.minute u) (met_for q (rows_in n rows.old)) x) (enter_by (stirs_of key q.minute u) (met_for q (rows_in n rows.old)) x) result.moved x) (rows_in n rows.old) }
{
    let met = &mut *bench.met;
    let was = &mut *bench.rows;
    let held = &mut *bench.held;
    let entering = &mut *bench.entering;
    let m = asking::meet(&rows[..n * 2], q, met);
    let met = &*met;
    let meets = Meets {
        met: &met[..m.all],
        first: m.partner,
        cap: q.cap,
    };
    let from = i * 2;
    let _ = rows::copy(rows, from, n * 2, was, 0);
    let was = &*was;
    let z = walk(
        &was[..(n - i) * 2],
        &meets,
        held,
        entering,
        rows,
        from,
        key,
        u,
        q.minute,
    );
    let entering = &*entering;
    let r = rows::enter(
        &entering[..z.entering],
        q.stands,
        q.blocks,
        q.two,
        rows,
        z.place,
    );
    Ends { place: r, ..z }
}
