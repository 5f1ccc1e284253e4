// When a train of the single run is to be served next: the first turn in which it asks for its next element, or, where it is held, in which a block has ended.
#![tactic(auto)]

ghost use Rattle.std.specs.Prelude.{◌≡◌, ◌/◌, ◌%◌, ◌<◌, set};
ghost use Rattle.moving.specs.Words.{order_in, freed_in, reopened_in, turn};
ghost use Rattle.single_laws.specs.Asks.{FitsOf, never, not_before, ask_in, held_in};

use moving::Tables;

// A minute past all those of a run.
const PAST: u64 = 65536;

// The first minute after t in which a block on e has ended, if it comes before bound.
// `bound` is the least so far, here and in `reopened`: with an `Option` for none, what an element and its partner answer would have to be compared.
#[tactic(auto, unfolding(moving::specs::Words::freed_in))]
fn freed(tables: &Tables<'_>, run: &[u64], t: u64, e: u64, bound: u64) -> u64
    requires { (t < 65536) × (e < 4294967296) }
    ensures { result ≡ freed_in tables.now.words.now t e run.now bound }
{
    let n = tables.at(words::TRAINS);
    let mut best = bound;
    for k in 0..n {
        let end = words::at(run, words::BLOCKS + e * 8 + k);
        if t < end {
            best = best.min(end);
        }
    }
    best
}

// The first minute after t in which a block on e or on its partner has ended, if it comes before bound: until then, who is held at e stays so.
#[tactic(auto, unfolding(moving::specs::Words::reopened_in))]
fn reopened(tables: &Tables<'_>, run: &[u64], t: u64, e: u64, bound: u64) -> u64
    requires { (t < 65536) × (e < 65) }
    ensures { result ≡ reopened_in tables.now.words.now t e run.now bound }
{
    let own = freed(tables, run, t, e, bound);
    match words::partner(tables.words, e) {
        Some(other) => freed(tables, run, t, other, own),
        None => own,
    }
}

// The turn of the i-th train for e in minute t, as one number.
// It stays one number: it is a word of `asks`, the least is the soonest, and `served_at` and `Called` tell of it so.
fn turn(t: u64, e: u64, i: u64) -> u64
    requires { (t < 8589934592) × (e < 128) × (i < 8) }
    ensures { result ≡ turn t e i }
{
    t * words::TURNS + e * 8 + i
}

// The turn z, or, if it is before q, that of the minute after.
#[tactic(auto, unfolding(single_laws::specs::Asks::not_before))]
fn not_before(q: u64, z: u64) -> u64
    requires { z < 9223372036854775808 }
    ensures { result ≡ not_before q z }
{
    if z < q { z + words::TURNS } else { z }
}

// The first turn from q on in which the i-th train asks for its next element; past all turns of the run where it has none.
// No `Option`: the answer is a word of `asks`, and `ask_in` says which.
pub fn ask(tables: &Tables<'_>, run: &[u64], q: u64, i: u64) -> u64
    requires { (i < 8) × FitsOf run.now (order_in tables.now.words.now i) × (q < 134217728) }
    ensures { result ≡ ask_in tables.now.words.now run.now q i }
{
    let k = tables.at(words::ORDER + i);
    let e = tables.at(words::NEXT + k * 128 + words::at(run, k));
    if e >= words::OUTSIDE {
        return turn(PAST, words::NOWHERE, i);
    }
    let t = words::at(run, words::DUE + k).max(q / words::TURNS);
    not_before(q, turn(t, e, i))
}

// The train of turn q is held: it is to be served when a block has ended on what it asks for, or on the partner of that.
#[tactic(auto, unfolding(single_laws::specs::Asks::held_in))]
pub fn hold(tables: &Tables<'_>, run: &[u64], asks: &mut [u64], q: u64)
    requires { (q < never) × (q / 8 % 128 < 65) }
    ensures { asks.new ≡ set asks.old (q % 8) (held_in tables.now.words.now run.now q) }
{
    let e = q / 8 % 128;
    let t = reopened(tables, run, q / words::TURNS, e, PAST);
    words::put(asks, q % 8, turn(t, e, q % 8));
}
