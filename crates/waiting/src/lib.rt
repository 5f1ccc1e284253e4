// What a run notes beside its rows: what stirred the pairs of train and element, and which of them have rows that wait.
#![tactic(auto)]

ghost use Rattle.std.specs.Prelude.{◌≡◌, ◌<◌};
ghost use Rattle.asking.specs.Ask.{Mutual};
ghost use Rattle.waiting.specs.Notes.{told_of, told_all, told_across, told_left, fresh_of};

// The notes of a run. What stirred a pair of train and element stands at the pair's number, train · 128 + element.
// One array and not five: `told_of`, `fresh_of` and `Flagged` tell of one list by these places.
// That an element's word is set where a pair of it is stirred (`Flagged`) stays a clause where it is used: `wake` and those who tell take notes of any words.
pub type Notes = [u64; NOTES];

// How many words the notes have.
pub const NOTES: usize = 6272;

// From here on stands whether a pair of an element is stirred.
pub const ELEMENTS: usize = 1024;

// From here on stands whether rows of a pair wait.
pub const WAITING: usize = 1152;

// From here on stands in which minutes rows are due.
pub const DUE: usize = 2176;

// From here on stands in which minutes blocks end.
pub const ENDING: usize = 4224;

// The pair i is told of the cover c, if rows of it wait.
#[tactic(auto, unfolding(crate::specs::Notes::told_of))]
fn tell(notes: &mut Notes, i: usize, c: u64)
    requires { i < 1024 }
    ensures { notes.new ≡ told_of notes.old i c }
{
    if notes[WAITING + i] == 0 {
        return;
    }
    notes[i] |= c;
    notes[ELEMENTS + i % 128] = 1;
}

// The pairs of all trains with the element e are told of the cover c.
pub fn tell_all(notes: &mut Notes, e: usize, c: u64)
    requires { e < 128 }
    ensures { notes.new ≡ told_all 8 notes.old e c }
{
    for k in 0..8 {
        tell(notes, k * 128 + e, c);
    }
}

// The pairs of all trains with the partner of e, if it has one, are told of the cover c.
#[tactic(auto, unfolding(crate::specs::Notes::told_across))]
pub fn tell_across(tables: &[u64], notes: &mut Notes, e: u64, c: u64)
    requires { (e < 128) × Mutual tables.now }
    ensures { notes.new ≡ told_across tables.now notes.old e c }
{
    if let Some(partner) = words::partner(tables, e) {
        tell_all(notes, partner as usize, c);
    }
}

// The pairs of all trains with e, which is left, and with its partner are told of the cover c.
#[tactic(auto, unfolding(crate::specs::Notes::told_left))]
pub fn tell_left(tables: &[u64], notes: &mut Notes, e: u64, c: u64)
    requires { (e < 128) × Mutual tables.now }
    ensures { notes.new ≡ told_left tables.now notes.old e c }
{
    tell_all(notes, e as usize, c);
    tell_across(tables, notes, e, c);
}

// A row of the pair i with the cover c now waits.
#[tactic(auto, unfolding(crate::specs::Notes::fresh_of))]
pub fn wake(notes: &mut Notes, i: usize, c: u64)
    requires { i < 1024 }
    ensures { notes.new ≡ fresh_of notes.old i c }
{
    notes[WAITING + i] = 1;
    notes[i] |= c;
    notes[ELEMENTS + i % 128] = 1;
}
