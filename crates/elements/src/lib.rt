// The passes of one minute: for each element the trains in order, for all elements the way out last.
#![tactic(auto)]

ghost use Rattle.std.specs.Prelude.{◌≡◌, ◌≤◌, ◌<◌, length, take, get_or};
ghost use Rattle.rows.specs.Rows.{rows_of};
ghost use Rattle.serving.specs.Pass.{Lends, Keeps};
ghost use Rattle.waiting.specs.Notes.{Flagged};
ghost use Rattle.visiting.specs.Visit.{read, Kept, Noted, Seen};
ghost use Rattle.elements.specs.Elements.{element_of, elements_of, union_of, tidied_of};

use asking::Turn;
use stirring::Work;
use visiting::Plan;

// The passes for e of one train after the other, in order.
fn trains(
    rows: &mut [u64],
    w: usize,
    plan: &Plan<'_>,
    work: &mut Work<'_>,
    weights: &mut [u64],
    t: u64,
    e: u64,
) -> usize
    requires lent { Lends plan.now.words.now rows.old work.old.bench }
    requires t_bound { (t < 720) × (e ≤ 64) }
    requires kept { Kept w rows.old × Flagged work.old.notes.now × (w < length rows.old → Noted plan.now.words.now t work.old.notes.now (rows_of (take w rows.old))) }
    ensures keeps { Keeps work.old.bench work.new.bench }
    ensures notes { work.new.notes.ghost_name ≡ work.old.notes.ghost_name }
    ensures seen { Seen plan.now.words.now t (element_of plan.now.words.now t e (get_or plan.now.words.now 0 0) (read w rows.old weights.old)) result rows.new weights.new work.new.notes.now }
{
    let n = words::at(plan.words, words::TRAINS);
    let mut v = w;
    for j in 0..n {
        let turn = Turn {
            minute: t,
            place: e,
            train: words::at(plan.words, words::ORDER + j),
        };
        v = stirring::visit(rows, v, plan, work, weights, turn);
    }
    v
}

// All that stirred the pairs of the element e.
fn union(notes: &waiting::Notes, e: usize) -> u64
    requires { e < 128 }
    ensures { result ≡ union_of 8 notes.now e }
{
    let mut s = 0;
    for k in 0..8 {
        s |= notes[k * 128 + e];
    }
    s
}

// The word of the element e says whether one of its pairs is stirred.
#[tactic(auto, unfolding(crate::specs::Elements::tidied_of))]
fn tidy(notes: &mut waiting::Notes, e: usize)
    requires { e < 128 }
    ensures { notes.new ≡ tidied_of notes.old e }
{
    let s = union(notes, e);
    notes[waiting::ELEMENTS + e] = s;
}

// The passes for e, if one of its pairs is stirred.
fn element(
    rows: &mut [u64],
    w: usize,
    plan: &Plan<'_>,
    work: &mut Work<'_>,
    weights: &mut [u64],
    t: u64,
    e: u64,
) -> usize
    requires lent { Lends plan.now.words.now rows.old work.old.bench }
    requires t_bound { (t < 720) × (e ≤ 64) }
    requires kept { Kept w rows.old × Flagged work.old.notes.now × (w < length rows.old → Noted plan.now.words.now t work.old.notes.now (rows_of (take w rows.old))) }
    ensures keeps { Keeps work.old.bench work.new.bench }
    ensures notes { work.new.notes.ghost_name ≡ work.old.notes.ghost_name }
    ensures seen { Seen plan.now.words.now t (element_of plan.now.words.now t e (get_or plan.now.words.now 0 0) (read w rows.old weights.old)) result rows.new weights.new work.new.notes.now }
{
    if work.notes[waiting::ELEMENTS + e as usize] == 0 {
        return w;
    }
    let v = trains(rows, w, plan, work, weights, t, e);
    tidy(work.notes, e as usize);
    v
}

// The passes for one element after the other, the way out last.
// The count of words stays beside the rows, here and above: passes write past it, and `Seen` tells by it of refusal 12.
pub fn elements(
    rows: &mut [u64],
    w: usize,
    plan: &Plan<'_>,
    work: &mut Work<'_>,
    weights: &mut [u64],
    t: u64,
) -> usize
    requires lent { Lends plan.now.words.now rows.old work.old.bench }
    requires t_bound { t < 720 }
    requires kept { Kept w rows.old × Flagged work.old.notes.now × (w < length rows.old → Noted plan.now.words.now t work.old.notes.now (rows_of (take w rows.old))) }
    ensures keeps { Keeps work.old.bench work.new.bench }
    ensures notes { work.new.notes.ghost_name ≡ work.old.notes.ghost_name }
    ensures seen { Seen plan.now.words.now t (elements_of plan.now.words.now t 65 (read w rows.old weights.old)) result rows.new weights.new work.new.notes.now }
{
    let mut v = w;
    for e in 0..words::OUTSIDE {
        v = element(rows, v, plan, work, weights, t, e);
    }
    v
}
