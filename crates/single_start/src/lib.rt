// The single run of one choice of delays begins: what the run before it left is cleared, and every train waits outside with its delay.
#![tactic(auto)]

ghost use Rattle.std.specs.Prelude.{◌≡◌, true, ℕ, ◌+◌, ◌<◌, length, get_or, replicate};
ghost use Rattle.moving.specs.Words.{waits_in, start_in};
ghost use Rattle.single_laws.specs.Asks.{Fits};
ghost use Rattle.single_laws.specs.Trail.{Trod, Blank, Besides, Left, Cleared};
ghost use Rattle.single_laws.specs.Going.{Going};
ghost use Rattle.single_laws.specs.Moves.{Renewed};

use moving::Tables;
use single_laws::Plan;

// The blocks of train k on the elements that it has left are cleared, and its arrival is.
fn wipe(tables: &Tables<'_>, run: &mut [u64], k: u64, moves: u64)
    requires { (k < 8) × (length run.old ≡ 544) × Trod tables.now.words.now run.old k 1 moves }
    ensures { Besides k run.old run.new × Blank run.new k × (get_or run.new (16 + k) 0 ≡ 0) }
{
    let mut e = tables.at(words::NEXT + k * 128 + words::OUTSIDE);
    for _ in 1..moves {
        words::put(run, words::BLOCKS + e * 8 + k, 0);
        e = tables.at(words::NEXT + k * 128 + e);
    }
    words::put(run, words::ARRIVALS + k, 0);
}

// What the run before this one left is cleared, and no other word is touched.
fn clear(plan: &Plan<'_>, run: &mut [u64], asks: &mut [u64])
    requires { Left plan.now.tables.words.now run.old asks.old }
    ensures { Cleared plan.now.tables.words.now run.new asks.new }
{
    let n = plan.tables.at(words::TRAINS);
    for k in 0..n {
        wipe(&plan.tables, run, k, words::at(asks, words::MOVES + k));
        words::put(asks, words::MOVES + k, 0);
    }
}

// The choice's index for train k, and 0 past its end.
// Beside `words::at`: what the two share is one line of the library's methods, and this one widens a byte, for `wait` less than 256.
fn index(choice: &[u8], k: u64) -> u64
    ensures { (result ≡ get_or choice.now k 0) × (result < 256) }
{
    u64::from(choice.get(k as usize).copied().unwrap_or(0))
}

// Train k waits outside with the delay of index d.
#[tactic(auto, unfolding(moving::specs::Words::waits_in))]
fn wait(tables: &Tables<'_>, run: &mut [u64], k: u64, d: u64)
    requires { (k < 4294967296) × (d < 256) }
    ensures { run.new ≡ waits_in tables.now.words.now k d run.old }
{
    let due = tables.at(words::FIRST_ARRIVALS + k) + tables.at(words::DELAYS + k * 8 + d);
    words::put(run, k, words::OUTSIDE);
    words::put(run, words::DUE + k, due);
}

// Every train waits outside, due at its first arrival plus its delay.
fn start(tables: &Tables<'_>, choice: &[u8], run: &mut [u64])
    ensures { run.new ≡ start_in tables.now.words.now choice.now run.old }
{
    let n = tables.at(words::TRAINS);
    for k in 0..n {
        wait(tables, run, k, index(choice, k));
    }
}

// The first turn of each train.
fn first(plan: &Plan<'_>, run: &[u64], asks: &mut [u64])
    requires { Fits plan.now.tables.words.now run.now × (length asks.old ≡ 16) }
    ensures { Renewed plan.now.tables.words.now run.now 0 (λ z. true) asks.old asks.new }
{
    let n = plan.tables.at(words::TRAINS);
    for i in 0..n {
        words::put(asks, i, single_asks::ask(&plan.tables, run, 0, i));
    }
}

// The choice begins: what the run before it left is cleared, each train waits outside, and its first turn is known.
// The run's words and what it asks for stay two slices, here and above, as in `single::run_to`.
pub fn begin(plan: &Plan<'_>, choice: &[u8], run: &mut [u64], asks: &mut [u64])
    requires { Left plan.now.tables.words.now run.old asks.old }
    ensures going { Going plan.now.tables.words.now run.new asks.new 0 }
    ensures words { run.new ≡ start_in plan.now.tables.words.now choice.now (replicate {A = ℕ} 544 0) }
{
    clear(plan, run, asks);
    start(&plan.tables, choice, run);
    first(plan, run, asks);
}
