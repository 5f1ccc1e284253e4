// Rows of two words, a state and a packed cover, in lent slices: gathering, copying and appending.
// A state stays a number: rows are lent as words, and `ended_of` and `asks_of` tell of it by these divisions.
#![tactic(auto)]

ghost use Rattle.std.specs.Prelude.{◌≡◌, not, ◌∷◌, [], ◌+◌, ◌*◌, ◌/◌, ◌≤◌, ◌<◌, length, set, eqb};
ghost use Rattle.std.proofs.Math.Seq.{slice};
ghost use Rattle.rules.specs.Lists.{one};
ghost use Rattle.theory_lists.specs.Writes.{Put};
ghost use Rattle.rows.specs.Rows.{words, rows_of, Begins, ended_of, met_of, held_rows, entered_rows};

// One word more, where there is room.
// No `Option`: the place stays at the end where there is no room, as `Put` says.
fn put(out: &mut [u64], w: usize, x: u64) -> usize
    requires { w ≤ length out.old }
    ensures { Put out.old w (x ∷ []) result out.new }
{
    if w < out.len() {
        out[w] = x;
        return w + 1;
    }
    w
}

// One row more, where there is room.
pub fn append(out: &mut [u64], w: usize, s: u64, c: u64) -> usize
    requires { w ≤ length out.old }
    ensures { Put out.old w (s ∷ c ∷ []) result out.new }
{
    let next = put(out, w, s);
    put(out, next, c)
}

// Whether s is the state of a block whose end is t or earlier.
#[tactic(auto, unfolding(crate::specs::Rows::ended_of))]
pub fn ended(s: u64, t: u64) -> bool
    ensures { result ≡ ended_of t s }
{
    s / 2048 % 2 == 1 && s % 2048 <= t
}

// The cover c of a row of the state s is written at w, and counts if it is another train's than k.
fn offer(out: &mut [u64], w: usize, s: u64, c: u64, k: u64) -> usize
    requires { w < length out.old }
    ensures { (out.new ≡ set out.old w c) × (result ≡ w + length (one (not (eqb (s / 524288) k)) c)) }
{
    out[w] = c;
    if s / 524288 == k {
        return w;
    }
    w + 1
}

// The covers that train k meets at e, from the start of `out` on.
// Its loop goes by the row's number: `chunks_exact(2)` would first lend each row as a slice of its own, and its proof is twice as long.
pub fn gather(rows: &[u64], e: u64, k: u64, out: &mut [u64]) -> usize
    requires { length rows.now / 2 ≤ length out.old }
    ensures { (result ≤ length rows.now / 2) × Begins (met_of e k (rows_of rows.now)) result out.new }
{
    let mut w = 0;
    for i in 0..rows.len() / 2 {
        let s = rows[i * 2];
        if s / 4096 % 128 == e {
            w = offer(out, w, s, rows[i * 2 + 1], k);
        }
    }
    w
}

// The words of `from` from a up to z, from the place d of `out` on, as far as there is room.
pub fn copy(from: &[u64], a: usize, z: usize, out: &mut [u64], d: usize) -> usize
    requires { (a ≤ z) × (z ≤ length from.now) × (d ≤ length out.old) }
    ensures { Put out.old d (slice a z from.now) result out.new }
{
    let n = (z - a).min(out.len() - d);
    out[d..d + n].copy_from_slice(&from[a..a + n]);
    d + n
}

// The covers as rows of the state s, from the place w on.
pub fn hold(covers: &[u64], s: u64, out: &mut [u64], w: usize) -> usize
    requires { w ≤ length out.old }
    ensures { Put out.old w (words (held_rows s covers.now)) result out.new }
{
    let mut z = w;
    for &held in covers {
        z = append(out, z, s, held);
    }
    z
}

// The rows of a cover that enters: one of the state s and, where it leaves an element, one of the state b.
fn enter_one(out: &mut [u64], w: usize, s: u64, b: u64, two: bool, c: u64) -> usize
    requires { w ≤ length out.old }
    ensures { Put out.old w (words (entered_rows s b two (c ∷ []))) result out.new }
{
    let next = append(out, w, s, c);
    if two {
        return append(out, next, b, c);
    }
    next
}

// The rows of the covers, which enter, from the place w on.
// The same loop as in `hold`: a closure that writes a row would be handed the output and the place, and is no shorter than the loop.
pub fn enter(covers: &[u64], s: u64, b: u64, two: bool, out: &mut [u64], w: usize) -> usize
    requires { w ≤ length out.old }
    ensures { Put out.old w (words (entered_rows s b two covers.now)) result out.new }
{
    let mut z = w;
    for &c in covers {
        z = enter_one(out, z, s, b, two, c);
    }
    z
}
