// Every choice by itself: its single run to a stop minute, and its weight added to the minute in which each train arrives.
#![tactic(auto)]

ghost use Rattle.std.specs.Prelude.{◌≡◌, ◌-◌, ◌<◌, ◌≤◌, length, take, slice_index};
ghost use Rattle.rules.specs.Lists.{fold};
ghost use Rattle.theory_plain.specs.Numbered.{times, indices};
ghost use Rattle.words.specs.Spans.{onward};
ghost use Rattle.single_laws.specs.Trail.{Left};
ghost use Rattle.plain.specs.Words.{Sized, sizes_in, weight_in, Timely, Plotted, arrived_in, tallied_in, added_in, past_in};

// The minutes of a train's row: those of the longest window.
const MINUTES: u64 = 720;

// How many choices there are: the sizes of the trains' tables multiplied.
fn combinations(tables: &[u64]) -> u64
    requires { Sized tables.now }
    ensures { result ≡ times (sizes_in tables.now) }
{
    let n = words::at(tables, words::TRAINS);
    let mut product: u64 = 1;
    for k in (0..n).rev() {
        product *= words::at(tables, words::SIZES + k);
    }
    product
}

// The choice numbered i, an index for each train, the last train's changing fastest; and its weight.
fn choose(tables: &[u64], i: u64) -> ([u8; 8], u64)
    requires { Sized tables.now }
    ensures choice { take (slice_index tables.now 0) result.0 ≡ indices (sizes_in tables.now) i }
    ensures weight { result.1 ≡ weight_in tables.now 0 (indices (sizes_in tables.now) i) }
{
    let n = words::at(tables, words::TRAINS);
    let mut choice = [0u8; 8];
    let mut left = i;
    let mut weight: u64 = 1;
    for k in (0..n).rev() {
        let size = words::at(tables, words::SIZES + k);
        let d = left % size;
        left /= size;
        choice[k as usize] = d as u8;
        weight *= words::at(tables, words::WEIGHTS + (k * 8 + d));
    }
    (choice, weight)
}

// The weight is added, for each train that has arrived, to the minute of its arrival.
fn tally(tables: &[u64], run: &[u64], weight: u64, ws: &mut [u64])
    requires { (slice_index tables.now 0 ≤ 8) × Timely tables.now run.now }
    ensures { ws.new ≡ tallied_in tables.now run.now weight ws.old }
{
    let n = words::at(tables, words::TRAINS);
    for k in 0..n {
        add_arrival(k, words::at(run, words::ARRIVALS + k), weight, ws);
    }
}

// The weight is added to train k's minute before `after`; where that is 0, the train has not arrived.
// Beside `weigh::raise`: `weigh` is a crate of the joint run, on which nothing here rests; what the two share is one line.
#[tactic(auto, unfolding(crate::specs::Words::arrived_in))]
fn add_arrival(k: u64, after: u64, weight: u64, ws: &mut [u64])
    requires { (k < 8) × (after ≤ 720) }
    ensures { ws.new ≡ arrived_in k after weight ws.old }
{
    if let Some(minute) = after.checked_sub(1) {
        let i = k * MINUTES + minute;
        words::put(ws, i, words::at(ws, i).wrapping_add(weight));
    }
}

// The number past the last choice of a part of them, where there are so many in all; the first one's where there is none.
#[tactic(auto, unfolding(crate::specs::Words::past_in))]
fn past(all: u64, first: u64, most: u64) -> u64
    ensures { result ≡ past_in all first most }
{
    first.saturating_add(most).min(all).max(first)
}

// The choice numbered i is run by itself to the stop minute, and its weight is added to the minutes of its arrivals.
// The run's words and what it asks for stay two slices, as in `single::run_to`.
fn add_choice(tables: &[u64], stop: u64, i: u64, run: &mut [u64], asks: &mut [u64], ws: &mut [u64])
    requires { Plotted tables.now stop × (i < times (sizes_in tables.now)) × Left tables.now run.old asks.old }
    ensures { Left tables.now run.new asks.new × (ws.new ≡ added_in tables.now stop i ws.old) }
{
    let (choice, weight) = choose(tables, i);
    let n = words::at(tables, words::TRAINS) as usize;
    single::run_to(tables, &choice[..n], stop, run, asks);
    tally(tables, run, weight, ws);
}

// The choices numbered from `first` on, at most `most` of them, one after another; the number of choices run.
pub fn add_part(tables: &[u64], stop: u64, first: u64, most: u64, ws: &mut [u64]) -> u64
    requires { Plotted tables.now stop }
    ensures { (result ≡ past_in (times (sizes_in tables.now)) first most - first) × (ws.new ≡ fold (added_in tables.now stop) (onward (past_in (times (sizes_in tables.now)) first most) first) ws.old) }
{
    let end = past(combinations(tables), first, most);
    let mut run = [0u64; words::RUN_SIZE];
    let mut asks = [0u64; words::ASKS_SIZE];
    for i in first..end {
        add_choice(tables, stop, i, &mut run, &mut asks, ws);
    }
    end - first
}
