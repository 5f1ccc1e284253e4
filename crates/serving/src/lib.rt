// A row that asks is served: its held pieces are written as rows in its place, and those that enter are put to the others. The definitions of a whole pass
// stand here too; `passing` runs it.
#![tactic(auto)]

ghost use Rattle.std.specs.Prelude.{◌≡◌, ◌*◌, ◌/◌, ◌≤◌, length, get_or};
ghost use Rattle.cut.specs.Cut.{cut_by, Room, fitting, Wrote, held_of, entering_of};
ghost use Rattle.rows.specs.Rows.{row, words, held_rows};
ghost use Rattle.quiet.specs.Parts.{Sub};
ghost use Rattle.serving.specs.Pass.{met_in, moved_of, Went, Two};

use cut::{Meets, Pieces};

// The place after the last word of the rows, how many covers have entered, and all that moved: the covers of the rows that were cut or entered.
// Where the rows leave no place, it is their length: `Put`, by which each write is promised, ends there, and `Passed` tells of that place.
#[derive(Clone, Copy)]
pub struct Ends {
    pub place: usize,
    pub entering: usize,
    pub moved: u64,
}

// What a pass works with, in lent memory: the rows as they were, the covers that are met, and the pieces that are held and that enter.
#[derive(Drop)]
pub struct Bench<'a> {
    pub rows: &'a mut [u64],
    pub met: &'a mut [u64],
    pub held: &'a mut [u64],
    pub entering: &'a mut [u64],
}

// All that moved, where m moved before: with the cover c, unless its only piece is held and is c itself.
#[tactic(auto, unfolding(crate::specs::Pass::moved_of))]
fn moved_with(held: &[u64], entered: usize, c: u64, m: u64) -> u64
    ensures { result ≡ moved_of (length held.now) (get_or held.now 0 0) entered c m }
{
    if held.len() == 1 && entered == 0 && held[0] == c {
        return m;
    }
    m | c
}

// The pieces of a row that asks with the cover c. Mostly it meets none of a partner's, and then there is nothing to cross.
fn pieces(
    meets: &Meets<'_>,
    held: &mut [u64],
    entering: &mut [u64],
    room: usize,
    c: u64,
    w: Pieces,
) -> Pieces
    requires { Room room w held.old entering.old × (meets.now.first ≤ length meets.now.met.now) }
    ensures { Wrote w held.old entering.old (fitting room w (cut_by (met_in meets.now.cap meets.now.first meets.now.met.now) c)) result held.new entering.new }
{
    if meets.first == 0 {
        return cut::carry(meets, held, entering, room, 0, 0, c, w);
    }
    crossing::across(meets, held, entering, room, 0, c, w)
}

// A row of the state s that asks with the cover c. Its held pieces are written as rows of its state, and those that enter are put to the others.
// The three that are written stay apart: a struct that lends them would say in each clause that it lends the same.
pub fn serve(
    meets: &Meets<'_>,
    held: &mut [u64],
    entering: &mut [u64],
    rows: &mut [u64],
    so_far: Ends,
    s: u64,
    c: u64,
) -> Ends
    requires { (2 ≤ length rows.old) × (length rows.old / 2 * 2 ≡ length rows.old) × (length rows.old ≤ length held.old * 2) × (length rows.old ≤ length entering.old * 2) × (so_far.place ≤ length rows.old) × (so_far.entering * 2 ≤ length rows.old) × (meets.now.first ≤ length meets.now.met.now) }
    ensures two { Two rows.old so_far.place (words (held_rows s (held_of (cut_by (met_in meets.now.cap meets.now.first meets.now.met.now) c)))) result.place rows.new entering.old so_far.entering (entering_of (cut_by (met_in meets.now.cap meets.now.first meets.now.met.now) c)) result.entering entering.new }
    ensures sub { Sub so_far.moved result.moved × Went (held_rows s (held_of (cut_by (met_in meets.now.cap meets.now.first meets.now.met.now) c))) (entering_of (cut_by (met_in meets.now.cap meets.now.first meets.now.met.now) c)) result.moved (row s c) }
{
    let room = rows.len() / 2;
    let w = Pieces {
        held: 0,
        entering: so_far.entering,
    };
    let z = pieces(meets, held, entering, room, c, w);
    if z.held + z.entering == room {
        return Ends {
            place: rows.len(),
            entering: z.entering,
            moved: so_far.moved | c,
        };
    }
    let held = &held[..z.held];
    let place = rows::hold(held, s, rows, so_far.place);
    let moved = moved_with(held, z.entering - so_far.entering, c, so_far.moved);
    Ends {
        place,
        entering: z.entering,
        moved,
    }
}
