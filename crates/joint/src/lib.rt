// The joint run on rows of two words: minutes and the run to a stop minute, with the weights that arrive.
#![tactic(auto)]

ghost use Rattle.std.specs.Prelude.{◌≡◌, ◌+◌, ◌*◌, ◌≤◌, ◌<◌, length, take, get_or, replicate};
ghost use Rattle.rows.specs.Rows.{rows_of};
ghost use Rattle.weigh.specs.Weigh.{Small};
ghost use Rattle.serving.specs.Pass.{Lends, Keeps};
ghost use Rattle.waiting.specs.Notes.{Flagged};
ghost use Rattle.visiting.specs.Visit.{read, Kept, Ways};
ghost use Rattle.clearing.specs.Clear.{Due};
ghost use Rattle.entries.specs.Run.{minute_of, minutes_of};
ghost use Rattle.entries.specs.Answer.{Answers};
ghost use Rattle.joint.specs.Minutes.{Passes};

use serving::Bench;
use stirring::Work;
use visiting::Plan;

// The most words of rows that are lent to a run; the covers that a pass meets have as many places.
const LENT: usize = 2050;

// The most rows of a run, each with a cover.
const COVERS: usize = 1025;

// Minute t: the blocks that ended go, rows that are due now wait, then the passes of all elements.
fn minute(
    rows: &mut [u64],
    w: usize,
    plan: &Plan<'_>,
    work: &mut Work<'_>,
    weights: &mut [u64],
    t: u64,
) -> usize
    requires lent { Lends plan.now.words.now rows.old work.old.bench }
    requires t_bound { t < 720 }
    requires kept { Kept w rows.old × Flagged work.old.notes.now × (w < length rows.old → Due plan.now.words.now t work.old.notes.now (rows_of (take w rows.old))) }
    ensures keeps { Keeps work.old.bench work.new.bench }
    ensures passes { Passes plan.now.words.now t (minute_of plan.now.words.now t (read w rows.old weights.old)) result rows.new weights.new work.new.notes.now }
{
    if w == rows.len() {
        return w;
    }
    let v = clearing::clear(rows, w, work.notes, plan.words, t);
    clearing::wake(&rows[..v], plan.words, work.notes, t);
    elements::elements(rows, v, plan, work, weights, t)
}

// The minutes from 0 to `stop`.
fn minutes(
    rows: &mut [u64],
    w: usize,
    plan: &Plan<'_>,
    work: &mut Work<'_>,
    weights: &mut [u64],
    stop: u64,
) -> usize
    requires lent { Lends plan.now.words.now rows.old work.old.bench }
    requires stop_bound { stop < 720 }
    requires kept { Kept w rows.old × Flagged work.old.notes.now × (w < length rows.old → Due plan.now.words.now 0 work.old.notes.now (rows_of (take w rows.old))) }
    ensures { (read result rows.new weights.new ≡ minutes_of plan.now.words.now (stop + 1) (read w rows.old weights.old)) × Kept result rows.new }
{
    let mut v = w;
    for t in 0..=stop {
        v = minute(rows, v, plan, work, weights, t);
    }
    v
}

// The run from the first list through the minute `stop`, where nothing has arrived: the number of words of its rows, or the length of the lent rows for
// refusal 12. What the run notes and works with is its own.
// Refusal 12 stays that number, inside the run too: `Answers`, by which the calls are proved, and `Seen` and `Passes` below it speak of it.
pub fn run(tables: &[u64], rows: &mut [u64], weights: &mut [u64], stop: u64) -> usize
    requires { (length rows.old ≡ get_or tables.now 3 0 * 2 + 2) × (length rows.old ≤ 2050) × (stop < 720) × Small tables.now × Ways tables.now × (weights.old ≡ replicate 5760 0) }
    ensures { Answers tables.now stop (length weights.old) result rows.new weights.new }
{
    let mut notes: waiting::Notes = [0; waiting::NOTES];
    let w = opening::begin(tables, rows);
    clearing::enrol(&rows[..w], &mut notes);
    let plan = Plan { words: tables };
    let mut work = Work {
        bench: Bench {
            rows: &mut [0; LENT],
            met: &mut [0; LENT],
            held: &mut [0; COVERS],
            entering: &mut [0; COVERS],
        },
        notes: &mut notes,
    };
    minutes(rows, w, &plan, &mut work, weights, stop)
}
