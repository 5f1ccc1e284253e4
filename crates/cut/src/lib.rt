// The cutting rule on packed covers: one u64 holds a set of delays for each of eight trains, train k's in byte k, delay d as bit d.
// A train that is not there has the set 1, so that no test asks how many trains there are.
#![tactic(auto)]

pub mod outsides;

ghost use Rattle.std.specs.Prelude.{◌≡◌, ◌+◌, ◌-◌, ◌*◌, ◌^◌, ◌≤◌, ◌<◌, length, drop};
ghost use Rattle.rules.specs.Lists.{each};
ghost use Rattle.cut.specs.Cut.{full_of, carried, passed, Room, fitting, Wrote, MeetsNext};
ghost use Rattle.cut.specs.Ahead.{ahead};

use outsides::Outsides;

// Seven low bits of each byte, and the high one.
const LOW: u64 = 0x7f7f_7f7f_7f7f_7f7f;

const HIGH: u64 = 0x8080_8080_8080_8080;

// What a piece meets: the covers, of which the first so many are the partner's (only `crossing` asks), and the element's capacity.
#[derive(Clone, Copy)]
pub struct Meets<'a> {
    pub met: &'a [u64],
    pub first: usize,
    pub cap: usize,
}

// How many held and how many entering pieces are written.
// The outputs stay slices beside it: a struct that lends them would say in every clause of `carry` and `cut` that it still lends the same.
// `room` stays beside it too: it is the same in all calls, and only what is written changes.
#[derive(Clone, Copy)]
pub struct Pieces {
    pub held: usize,
    pub entering: usize,
}

// Whether no set of a packed cover is empty: each byte's low bits carry into its high bit unless they are all 0.
pub fn full(v: u64) -> bool
    ensures { result ≡ full_of 8 v }
{
    ((((v & LOW) + LOW) | v) & HIGH) == HIGH
}

// The first entry from `at` on that has a common choice with p, unless fewer than `need` are still to meet before there is one.
pub fn meeting(met: &[u64], need: usize, at: usize, p: u64) -> Option<usize>
    requires { (0 < need) × (at ≤ length met.now) }
    ensures { MeetsNext need p at met.now result }
{
    let end = met.len().saturating_sub(need - 1);
    for i in at..end {
        if full(p & met[i]) {
            return Some(i);
        }
    }
    None
}

// Carries the piece p with its count through the entries met from `at` on, and writes what comes of it, held and
// entering pieces apart, each in cutting order from its place in w on. It stops once `room` pieces are written.
// Entries with no common choice are passed over by a loop, so only a cut goes deeper: an inside raises the count, which ends at the
// capacity, and an outside piece has a delay less, of at most 56 that the sets can lose. So the calls are at most 1 + capacity + 2 * 56 deep.
#[cycle(carry_cut)]
pub fn carry(
    meets: &Meets<'_>,
    held: &mut [u64],
    entering: &mut [u64],
    room: usize,
    at: usize,
    count: usize,
    p: u64,
    w: Pieces,
) -> Pieces
    requires { Room room w held.old entering.old × (at ≤ length meets.now.met.now) }
    ensures { Wrote w held.old entering.old (fitting room w (carried meets.now.cap (drop at meets.now.met.now) count p)) result held.new entering.new }
{
    if w.held + w.entering == room {
        return w;
    }
    if meets.cap <= count {
        held[w.held] = p;
        return Pieces {
            held: w.held + 1,
            ..w
        };
    }
    let Some(i) = meeting(meets.met, meets.cap - count, at, p) else {
        entering[w.entering] = p;
        return Pieces {
            entering: w.entering + 1,
            ..w
        };
    };
    let c = p & meets.met[i];
    let next = i + 1;
    let inner = carry(meets, held, entering, room, next, count + 1, c, w);
    let outsides = Outsides::of(p, c);
    cut(meets, held, entering, room, next, count, outsides, inner)
}

// Carries the outside pieces of a piece, by rising train number, and ends with the last train that loses a delay.
#[cycle(carry_cut)]
fn cut(
    meets: &Meets<'_>,
    held: &mut [u64],
    entering: &mut [u64],
    room: usize,
    at: usize,
    count: usize,
    outsides: Outsides,
    w: Pieces,
) -> Pieces
    requires { Room room w held.old entering.old × (at ≤ length meets.now.met.now) }
    ensures { Wrote w held.old entering.old (fitting room w (each (carried meets.now.cap (drop at meets.now.met.now) count) (ahead outsides))) result held.new entering.new }
{
    let mut z = w;
    for q in outsides {
        z = carry(meets, held, entering, room, at, count, q, z);
    }
    z
}
