// The first list: one row per train and delay, written from the tables.
#![tactic(auto)]

ghost use Rattle.std.specs.Prelude.{◌≡◌, map, ◌+◌, ◌≤◌, ◌<◌, length, get_or};
ghost use Rattle.rules.specs.Lists.{below};
ghost use Rattle.theory_lists.specs.Writes.{Put};
ghost use Rattle.rows.specs.Rows.{words};
ghost use Rattle.weigh.specs.Weigh.{Small};
ghost use Rattle.opening.specs.First.{first_byte, first_bytes, first_row, first_rows};

// Train j's byte of the first cover of train k with delay d: that delay, all delays of another train, or 1 for a train that is not there.
fn first_byte(tables: &[u64], k: u64, d: u64, j: u64) -> u64
    requires { Small tables.now × (d < 8) × (j < 8) }
    ensures { (result ≡ first_byte tables.now k d j) × (result < 256) }
{
    if j == k {
        return 1 << d;
    }
    if j < words::at(tables, words::TRAINS) {
        let n = words::at(tables, words::SIZES + j);
        return (1 << n) - 1;
    }
    1
}

// The first cover of train k with delay d.
// A byte after the other: `first_bytes` is told so, and `from_le_bytes` would only turn the bytes into that sum again.
fn first_cover(tables: &[u64], k: u64, d: u64) -> u64
    requires { Small tables.now × (d < 8) }
    ensures { result ≡ first_bytes tables.now k d 8 0 }
{
    let mut c = 0;
    for j in (0..8).rev() {
        let b = first_byte(tables, k, d, j);
        c = c * 256 + b;
    }
    c
}

// The first rows of train k, one per delay, from the place w on.
fn first_train(tables: &[u64], k: u64, rows: &mut [u64], w: usize) -> usize
    requires { Small tables.now × (k < 8) × (w ≤ length rows.old) }
    ensures { Put rows.old w (words (map (first_row tables.now k) (below (get_or tables.now (40 + k) 0)))) result rows.new }
{
    let n = words::at(tables, words::SIZES + k);
    let arrival = words::at(tables, words::FIRST_ARRIVALS + k);
    let mut at = w;
    for d in 0..n {
        let delay = words::at(tables, words::DELAYS + (k * 8 + d));
        let c = first_cover(tables, k, d);
        at = rows::append(rows, at, k * 524288 + 266240 + (arrival + delay), c);
    }
    at
}

// The first list: one row per train and delay, by train, then delay.
pub fn begin(tables: &[u64], rows: &mut [u64]) -> usize
    requires { Small tables.now }
    ensures { Put rows.old 0 (words (first_rows tables.now)) result rows.new }
{
    let n = words::at(tables, words::TRAINS);
    let mut at = 0;
    for k in 0..n {
        at = first_train(tables, k, rows, at);
    }
    at
}
