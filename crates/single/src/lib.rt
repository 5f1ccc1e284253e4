// The single run of one choice of delays on words, from one turn in which a train can be let in to the next.
#![tactic(auto)]

ghost use Rattle.std.specs.Prelude.{◌≡◌, ◌+◌, ◌*◌, ◌≤◌, ◌<◌, MatchOption, get_or};
ghost use Rattle.rules.specs.Lists.{fold, below};
ghost use Rattle.moving.specs.Words.{ran_in, served_at};
ghost use Rattle.single_laws.specs.Plan.{Planned};
ghost use Rattle.single_laws.specs.Trail.{Left};
ghost use Rattle.single_laws.specs.Going.{Going, soonest_in};
ghost use Rattle.single_laws.specs.Runs.{Reads, Arrives};

use moving::Tables;
use single_laws::Plan;

// The first turn before end in which a train is to be served, if there is one: the least of the turns of all trains.
fn soonest(tables: &[u64], asks: &[u64], end: u64) -> Option<u64>
    ensures { MatchOption result (end ≤ soonest_in tables.now asks.now end) (λ q. (q ≡ soonest_in tables.now asks.now end) × (q < end)) }
{
    let n = words::at(tables, words::TRAINS);
    let mut best = end;
    for i in 0..n {
        best = best.min(words::at(asks, i));
    }
    if best < end { Some(best) } else { None }
}

// The turns up to those of the stop minute, from one in which a train is to be served to the next.
fn turns(plan: &Plan<'_>, run: &mut [u64], asks: &mut [u64], stop: u64)
    requires { Going plan.now.tables.words.now run.old asks.old 0 × (stop < 65535) }
    ensures left { Left plan.now.tables.words.now run.new asks.new }
    ensures words { run.new ≡ fold (served_at plan.now.tables.words.now) (below ((stop + 1) * 1024)) run.old }
{
    let end = (stop + 1) * words::TURNS;
    while let Some(q) = soonest(plan.tables.words, asks, end) {
        single_turn::serve(plan, run, asks, q);
    }
}

// The run of a choice to the stop minute, on the words that a run before it left, or on words of 0.
// `run` and `asks` stay two slices, here and in what it calls: a struct that lends them would say in each clause that it lends the same.
pub fn run_to(tables: &[u64], choice: &[u8], stop: u64, run: &mut [u64], asks: &mut [u64])
    requires { Planned tables.now × (stop < 65535) × Left tables.now run.old asks.old }
    ensures words { run.new ≡ ran_in tables.now choice.now stop }
    ensures left { Left tables.now run.new asks.new }
{
    let plan = Plan {
        tables: Tables { words: tables },
    };
    single_start::begin(&plan, choice, run, asks);
    turns(&plan, run, asks, stop);
}

// The minute in which the choice brings train k in, 65,535 for none by the last minute.
pub fn arrival(tables: &[u64], choice: &[u8], k: u64) -> u64
    requires { Planned tables.now × (k < 4294967296) × (get_or tables.now 1 0 < 65535) }
    ensures words { Reads (get_or (ran_in tables.now choice.now (get_or tables.now 1 0)) (16 + k) 0) result }
    ensures case { Arrives tables.now choice.now k result }
{
    let mut run = [0u64; words::RUN_SIZE];
    let mut asks = [0u64; words::ASKS_SIZE];
    let stop = words::at(tables, words::LAST_MINUTE);
    run_to(tables, choice, stop, &mut run, &mut asks);
    // No `Option`: the number for none is that of `minute_number`, the rules' answer for C, which the clause `case` promises.
    words::at(&run, words::ARRIVALS + k)
        .checked_sub(1)
        .unwrap_or(65535)
}
