// One turn of the single run: its train is let in or held, and who waited for what it left is told.
#![tactic(auto)]

ghost use Rattle.std.specs.Prelude.{◌≡◌, true, ◌+◌, ◌/◌, ◌%◌, ◌≤◌, ◌<◌, length};
ghost use Rattle.moving.specs.Words.{trains_in, lets, served_at};
ghost use Rattle.single_laws.specs.Asks.{Fits, never};
ghost use Rattle.single_laws.specs.Trail.{moves_in};
ghost use Rattle.single_laws.specs.Going.{Going, Called};
ghost use Rattle.single_laws.specs.Moves.{beside_in, waits_for, Renewed, advanced_in};

use moving::Tables;
use single_laws::Plan;

// The partner of e, or e itself where it has none.
#[tactic(auto, unfolding(single_laws::specs::Moves::beside_in))]
fn beside(tables: &Tables<'_>, e: u64) -> u64
    requires { e < 65 }
    ensures { result ≡ beside_in tables.now.words.now e }
{
    words::partner(tables.words, e).unwrap_or(e)
}

// Who waits for the element that was left, or for its partner, is to be served anew, from turn q on; nobody waits for what is outside.
fn tell(plan: &Plan<'_>, run: &[u64], asks: &mut [u64], q: u64, left: u64)
    requires { Fits plan.now.tables.words.now run.now × (length asks.old ≡ 16) × (q < 134217728) }
    ensures { Renewed plan.now.tables.words.now run.now q (waits_for plan.now.tables.words.now left) asks.old asks.new }
{
    if left >= words::OUTSIDE {
        return;
    }
    let other = beside(&plan.tables, left);
    let n = plan.tables.at(words::TRAINS);
    for i in 0..n {
        let e = words::at(asks, i) / 8 % 128;
        if e == left || e == other {
            words::put(asks, i, single_asks::ask(&plan.tables, run, q, i));
        }
    }
}

// Train k, of turn q, has entered one more element, and asks for the next.
fn advance(plan: &Plan<'_>, run: &[u64], asks: &mut [u64], q: u64, k: u64)
    requires { Fits plan.now.tables.words.now run.now × (q % 8 < trains_in plan.now.tables.words.now) × (q < never) × (k < 8) × (moves_in asks.old k ≤ q) }
    ensures { asks.new ≡ advanced_in plan.now.tables.words.now run.now q k asks.old }
{
    let moves = words::at(asks, words::MOVES + k);
    words::put(asks, words::MOVES + k, moves + 1);
    words::put(
        asks,
        q % 8,
        single_asks::ask(&plan.tables, run, q + 1, q % 8),
    );
}

// The train of turn q is let in.
fn admit(plan: &Plan<'_>, run: &mut [u64], asks: &mut [u64], q: u64)
    requires { Going plan.now.tables.words.now run.old asks.old q × Called plan.now.tables.words.now asks.old q × (q < never)
        × (lets plan.now.tables.words.now (q / 1024) (q / 8 % 128) run.old ≡ true) }
    ensures going { Going plan.now.tables.words.now run.new asks.new (q + 1) }
    ensures words { run.new ≡ served_at plan.now.tables.words.now q run.old }
{
    let k = plan.tables.at(words::ORDER + q % 8);
    let left = words::at(run, k);
    plan.tables.enter(run, q / words::TURNS, q / 8 % 128, k);
    advance(plan, run, asks, q, k);
    tell(plan, run, asks, q + 1, left);
}

// The turn q, in which a train is to be served.
// The run's words and what it asks for stay two slices, here and above, as in `single::run_to`.
pub fn serve(plan: &Plan<'_>, run: &mut [u64], asks: &mut [u64], q: u64)
    requires { Going plan.now.tables.words.now run.old asks.old q × Called plan.now.tables.words.now asks.old q × (q < never) }
    ensures going { Going plan.now.tables.words.now run.new asks.new (q + 1) }
    ensures words { run.new ≡ served_at plan.now.tables.words.now q run.old }
{
    if plan.tables.lets(run, q / words::TURNS, q / 8 % 128) {
        admit(plan, run, asks, q);
    } else {
        single_asks::hold(&plan.tables, run, asks, q);
    }
}
