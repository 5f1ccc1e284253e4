// The cutting rule among the partner's entries, on packed covers: what has passed them goes on among the element's own, by `cut`.
#![tactic(auto)]

ghost use Rattle.std.specs.Prelude.{◌≤◌, length};
ghost use Rattle.rules.specs.Lists.{each};
ghost use Rattle.cut.specs.Cut.{Room, fitting, Wrote};
ghost use Rattle.cut.specs.Ahead.{ahead};
ghost use Rattle.crossing.specs.Crossing.{crossed_from};

use cut::outsides::Outsides;
use cut::{Meets, Pieces};

// Carries the piece p through the partner's entries, the first of those met, from `at` on: an inside is held at once, as a piece whose count
// has come to the capacity, and the outside pieces go on. A piece that has passed them all goes on with count 0 through the element's own entries, which
// `met` has after them. It writes and stops as `carry` does.
// Entries with no common choice are passed over by a loop, so only a cut goes deeper: an outside piece has a delay less, of at most 56 that the sets can lose
// here and in `carry` together. So the calls are at most 2 + capacity + 2 * 56 deep.
#[cycle(across_cut_across)]
pub fn across(
    meets: &Meets<'_>,
    held: &mut [u64],
    entering: &mut [u64],
    room: usize,
    at: usize,
    p: u64,
    w: Pieces,
) -> Pieces
    requires { Room room w held.old entering.old × (at ≤ meets.now.first) × (meets.now.first ≤ length meets.now.met.now) }
    ensures { Wrote w held.old entering.old (fitting room w (crossed_from meets.now.cap meets.now.met.now meets.now.first at p)) result held.new entering.new }
{
    if w.held + w.entering == room {
        return w;
    }
    let first = meets.first;
    let Some(i) = cut::meeting(&meets.met[..first], 1, at, p) else {
        return cut::carry(meets, held, entering, room, first, 0, p, w);
    };
    let c = p & meets.met[i];
    let inside = cut::carry(meets, held, entering, room, first, meets.cap, c, w);
    let outsides = Outsides::of(p, c);
    cut_across(meets, held, entering, room, i + 1, outsides, inside)
}

// Carries the outside pieces that an entry of the partner's leaves, as `cut` does.
// Beside `cut`: a closure that carries a piece would stand in the circle of calls and state all that it writes in clauses of its own.
#[cycle(across_cut_across)]
fn cut_across(
    meets: &Meets<'_>,
    held: &mut [u64],
    entering: &mut [u64],
    room: usize,
    at: usize,
    outsides: Outsides,
    w: Pieces,
) -> Pieces
    requires { Room room w held.old entering.old × (at ≤ meets.now.first) × (meets.now.first ≤ length meets.now.met.now) }
    ensures { Wrote w held.old entering.old (fitting room w (each (crossed_from meets.now.cap meets.now.met.now meets.now.first at) (ahead outsides))) result held.new entering.new }
{
    let mut z = w;
    for q in outsides {
        z = across(meets, held, entering, room, at, q, z);
    }
    z
}
