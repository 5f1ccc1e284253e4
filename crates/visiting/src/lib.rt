// What comes of one pass of one train for one element: the weights that arrive, and what is noted of who waits.
#![tactic(auto)]

ghost use Rattle.std.specs.Prelude.{◌≡◌, ◌/◌, ◌≤◌, ◌<◌, length};
ghost use Rattle.weigh.specs.Weigh.{Small};
ghost use Rattle.waiting.specs.Notes.{Flagged};
ghost use Rattle.visiting.specs.Visit.{arrived_of, show_of, wake_of, settled_of, Ways};

// The minutes of a train's weights: those of the longest window.
const MINUTES: u64 = 720;

// The words that the runs look up, and what a run may rest on: they are small, and the ways lead from place to place.
// `settle` and others, also in `clearing`, that need but one of the two take the words alone: with a `Plan` they would ask more of who calls them.
#[derive(Clone, Copy)]
pub struct Plan<'a> {
    pub words: &'a [u64],
    pub ghost small: { Small words.now },
    pub ghost ways: { Ways words.now },
}

// The covers have entered: where the element is the train's last station, their weights arrive in the job's minute.
pub fn arrive(tables: &[u64], covers: &[u64], weights: &mut [u64], q: asking::Job)
    requires { Small tables.now × (q.train < 8) × (q.minute < 720) }
    ensures { weights.new ≡ arrived_of tables.now q covers.now weights.old }
{
    if covers.is_empty() || q.place != words::at(tables, words::LAST_STATIONS + q.train) {
        return;
    }
    let x = weigh::brought(tables, covers);
    weigh::raise(weights, q.train * MINUTES + q.minute, x);
}

// The minute of the state s is shown: among those in which rows are due or, for a block, in which blocks end.
#[tactic(auto, unfolding(crate::specs::Visit::show_of))]
pub fn show(notes: &mut waiting::Notes, s: u64)
    ensures { notes.new ≡ show_of notes.old s }
{
    let i = (s % 4096) as usize;
    notes[waiting::DUE + i] = 1;
}

// Rows of the state s with covers among c wait now, if they are due at t.
#[tactic(auto, unfolding(crate::specs::Visit::wake_of))]
pub fn wake_due(tables: &[u64], notes: &mut waiting::Notes, s: u64, t: u64, c: u64)
    requires { Ways tables.now × (s / 524288 < 8) }
    ensures { notes.new ≡ wake_of tables.now t s c notes.old }
{
    if !asking::due(s, t) {
        return;
    }
    let e = words::at(tables, words::NEXT + s / 4096);
    let i = s / 524288 * 128 + e;
    waiting::wake(notes, i as usize, c);
}

// After the pass: its own pair has asked, the pairs that it concerns are told of all that moved, and the minutes of the new states are shown.
pub fn settle(tables: &[u64], notes: &mut waiting::Notes, q: asking::Job, from: u64, moved: u64)
    requires { Flagged notes.old × Ways tables.now × (q.train < 8) × (q.place < 128) × (from < 128) × (q.stands / 524288 < 8) }
    ensures { notes.new ≡ settled_of tables.now q from moved notes.old }
{
    let i = q.train * 128 + q.place;
    let own = i as usize;
    notes[own] = 0;
    wake_due(tables, notes, q.stands, q.minute, moved);
    waiting::tell_left(tables, notes, from, moved);
    waiting::tell_across(tables, notes, q.place, moved);
    show(notes, q.stands);
    show(notes, q.blocks);
}
