// Who asks for an element, what a pass is for, and the covers that its train meets, on rows of two words.
#![tactic(auto)]

ghost use Rattle.std.specs.Prelude.{◌≡◌, ◌*◌, ◌/◌, ◌<◌, ◌≤◌, length, MatchOption};
ghost use Rattle.rows.specs.Rows.{row, rows_of, Begins};
ghost use Rattle.weigh.specs.Weigh.{Small};
ghost use Rattle.asking.specs.Ask.{due_of, asks_of, reach_of, stirs_of, cap_of, leaves_of, job_of, met_across, met_on, met_for};
ghost use Rattle.asking.specs.Ask.{Gathered, Before, Found, Finds, Within};

// A minute, and the element and the train that have their turn in it.
#[derive(Clone, Copy)]
pub struct Turn {
    pub minute: u64,
    pub place: u64,
    pub train: u64,
}

// What a pass is for: minute, element and train; the element's capacity and its partner, 0 for none; the state of what enters, that of the block it leaves,
// and whether it leaves one.
// The partner stays the word of the tables, 0 for none: `Suits` says that it is that word, and theorems on jobs read it so.
#[derive(Clone, Copy)]
pub struct Job {
    pub minute: u64,
    pub place: u64,
    pub train: u64,
    pub cap: usize,
    pub partner: u64,
    pub stands: u64,
    pub blocks: u64,
    pub two: bool,
}

// Whether s is a standing state whose due minute is at most t.
#[tactic(auto, unfolding(crate::specs::Ask::due_of))]
pub fn due(s: u64, t: u64) -> bool
    ensures { result ≡ due_of t s }
{
    s / 2048 % 2 != 1 && s % 2048 <= t
}

// The first place from which train k goes on to e, if there is one.
pub fn before(tables: &[u64], k: u64, e: u64) -> Option<u64>
    requires { k < 8 }
    ensures { MatchOption result (Before tables.now k e 66) (λ p. (p < 66) × Before tables.now k e p) }
{
    for p in 0..66 {
        if words::at(tables, words::NEXT + (k * 128 + p)) == e {
            return Some(p);
        }
    }
    None
}

// Whether s is a state of the train, place and kind of `key` whose minute is at most t; `key` is their state of minute 0.
fn reached(s: u64, key: u64, t: u64) -> bool
    requires { (key < 4294967296) × (t < 2048) }
    ensures { result ≡ reach_of key t s }
{
    s.wrapping_sub(key) <= t
}

// Whether s is a state of the turn's train that is due in its minute and whose next element is its place.
#[tactic(auto, unfolding(crate::specs::Ask::asks_of))]
fn asks(tables: &[u64], s: u64, turn: Turn) -> bool
    ensures { result ≡ asks_of tables.now turn.minute turn.place turn.train s }
{
    s / 524288 == turn.train
        && due(s, turn.minute)
        && words::at(tables, words::NEXT + s / 4096) == turn.place
}

// Whether the row of the state s and the cover c is reached and shares a choice with u.
#[tactic(auto, unfolding(crate::specs::Ask::stirs_of))]
fn stirs(s: u64, c: u64, key: u64, t: u64, u: u64) -> bool
    requires { (key < 4294967296) × (t < 2048) }
    ensures { result ≡ stirs_of key t u (row s c) }
{
    reached(s, key, t) && cut::full(c & u)
}

// The first row from i on whose state and cover pass the test, if one does.
// The row's number is the answer, and the loop goes by it: over `chunks_exact(2)` it would have to be counted beside the rows.
fn find<F: Fn(u64, u64) -> bool>(rows: &[u64], i: usize, test: F) -> Option<usize>
    requires { (i * 2 ≤ length rows.now) × F.IsAlwaysCallable test }
    ensures { Finds (λ x b. F.post test x.state x.cover b) i (length rows.now / 2) rows.now result }
{
    for j in i..rows.len() / 2 {
        if test(rows[j * 2], rows[j * 2 + 1]) {
            return Some(j);
        }
    }
    None
}

// The first of the rows that asks, if one does.
pub fn first(rows: &[u64], tables: &[u64], turn: Turn) -> Option<usize>
    ensures { Found (λ x b. asks_of tables.now turn.minute turn.place turn.train x.state ≡ b) 0 (length rows.now / 2) rows.now result }
{
    find(rows, 0, |s, _| asks(tables, s, turn))
}

// The first of the rows that is reached, if one is.
pub fn first_reached(rows: &[u64], key: u64, t: u64) -> Option<usize>
    requires { (key < 4294967296) × (t < 2048) }
    ensures { Found (λ x b. reach_of key t x.state ≡ b) 0 (length rows.now / 2) rows.now result }
{
    find(rows, 0, |s, _| reached(s, key, t))
}

// The first row from i on that is reached and shares a choice with u, if one does.
// The key, the minute and u stay apart: `reached` takes two of them, `stirs` three, and a job has the minute already.
pub fn next(rows: &[u64], i: usize, key: u64, t: u64, u: u64) -> Option<usize>
    requires { (i * 2 ≤ length rows.now) × (key < 4294967296) × (t < 2048) }
    ensures { Found (λ x b. stirs_of key t u x ≡ b) i (length rows.now / 2) rows.now result }
{
    find(rows, i, |s, c| stirs(s, c, key, t, u))
}

// The capacity of e; on the way out nothing is met, so that 1 lets all in.
fn capacity(tables: &[u64], e: u64) -> u64
    requires { e < 128 }
    ensures { result ≡ cap_of tables.now e }
{
    if e < words::WAY_OUT {
        return words::at(tables, words::CAPACITIES + e);
    }
    1
}

// Whether who leaves the place `from` leaves a block: with safety time 0 nobody does, and nothing outside is blocked.
#[tactic(auto, unfolding(crate::specs::Ask::leaves_of))]
fn leaves_block(safety: u64, from: u64) -> bool
    ensures { result ≡ leaves_of safety from }
{
    safety != 0 && from != words::OUTSIDE
}

// What the pass of a turn is for, where the first asker has the state s.
pub fn assign(tables: &[u64], turn: Turn, s: u64) -> Job
    requires { Within turn.minute turn.place turn.train × Small tables.now }
    ensures { result ≡ job_of tables.now turn.minute turn.place turn.train s }
{
    let Turn {
        minute,
        place,
        train,
    } = turn;
    let cap = capacity(tables, place);
    let stay = words::at(tables, words::STAYS + (train * 128 + place));
    let safety = words::at(tables, words::SAFETY);
    let partner = words::at(tables, words::PARTNERS + place);
    let from = s / 4096 % 128;
    Job {
        minute,
        place,
        train,
        cap: cap as usize,
        partner,
        stands: train * 524288 + place * 4096 + (minute + stay),
        blocks: train * 524288 + from * 4096 + 2048 + (minute + safety),
        two: leaves_block(safety, from),
    }
}

// How many covers are met: the partner's, and all.
#[derive(Clone, Copy)]
pub struct Count {
    pub partner: usize,
    pub all: usize,
}

// The covers of other trains than k on the partner w of an element; without a partner there are none.
fn meet_across(rows: &[u64], w: u64, k: u64, out: &mut [u64]) -> usize
    requires { length rows.now / 2 ≤ length out.old }
    ensures { (result ≤ length rows.now / 2) × Begins (met_across w k (rows_of rows.now)) result out.new }
{
    if w == 0 {
        return 0;
    }
    rows::gather(rows, w, k, out)
}

// The covers of other trains than k on the element e; on the way out there are none.
fn meet_on(rows: &[u64], e: u64, k: u64, out: &mut [u64]) -> usize
    requires { length rows.now / 2 ≤ length out.old }
    ensures { (result ≤ length rows.now / 2) × Begins (met_on e k (rows_of rows.now)) result out.new }
{
    if words::WAY_OUT <= e {
        return 0;
    }
    rows::gather(rows, e, k, out)
}

// The covers that the job's train meets, the partner's first.
pub fn meet(rows: &[u64], q: Job, out: &mut [u64]) -> Count
    requires { length rows.now / 2 * 2 ≤ length out.old }
    ensures { Gathered (met_for q (rows_of rows.now)) result.partner result.all out.new }
{
    let first = meet_across(rows, q.partner, q.train, out);
    let own = meet_on(rows, q.place, q.train, &mut out[first..]);
    Count {
        partner: first,
        all: first + own,
    }
}
