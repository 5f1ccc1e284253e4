// The figures of one train, from the weights that have arrived: punctuality for a limit, three shares, and the lateness as sum and weight.
// Weights are words: that of train k in minute t stands at k * 720 + t.
#![tactic(auto)]

ghost use Rattle.std.specs.Prelude.{◌≡◌, List, ℕ, ◌+◌, ◌≤◌};
ghost use Rattle.rules.specs.Files.{Case};
ghost use Rattle.rules.specs.Turns.{Arrival};
ghost use Rattle.rules.specs.Joint.{Entry};
ghost use Rattle.rules.specs.Figures.{figures, double};
ghost use Rattle.out_figures.specs.Sums.{weight_times, judgement, shares_in, figures_in, Weighed};
ghost use Rattle.out_figures.specs.Answers.{punctuality_answer, shares_answer, figures_answer, no_figures, Holds};

// Never, always, or a share of the weight; refused where the call was.
// DECISIONS.md has these four cases, which C reads as 0 to 3 (FORMATS.md): so it is no Option of three.
#[derive(Clone, Copy, Debug, PartialEq)]
pub enum Punctuality {
    Refused,
    Never,
    Always,
    Share(f64),
}

// The shares of the weight that is on time, late, and not arrived by the last minute.
#[derive(Clone, Copy, Debug, PartialEq)]
pub struct Shares {
    pub on_time: f64,
    pub late: f64,
    pub not_arrived: f64,
}

// The figures of one train; the mean lateness of the arrived is `sum` by `weight`.
#[derive(Clone, Copy, Debug, PartialEq)]
pub struct Figures {
    pub punctuality: Punctuality,
    pub shares: Shares,
    pub sum: u64,
    pub weight: u64,
}

// The figures of a refused call: all 0.
pub fn refused() -> Figures
    ensures { result ≡ no_figures }
{
    Figures {
        punctuality: Punctuality::Refused,
        shares: Shares {
            on_time: 0.0,
            late: 0.0,
            not_arrived: 0.0,
        },
        sum: 0,
        weight: 0,
    }
}

// One division of two whole numbers, both exact as doubles.
// 10^14 stays a clause: 01 has one division of two whole numbers, docs name share, and a type round a number would ask more.
pub fn share(part: u64, whole: u64) -> f64
    requires { (part ≤ 100000000000000) × (whole ≤ 100000000000000) }
    ensures { result ≡ double part whole }
{
    (part as f64) / (whole as f64)
}

// The weights of train k, each as many times as `times` says of its minute, added up.
fn sum_of<F: Fn(u64) -> u64>(weights: &[u64], k: u64, last: u64, times: F) -> u64
    requires weighed { Weighed weights.now k last 100000000000000 }
    requires callable { F.IsAlwaysCallable times }
    requires most { (t n : ℕ) → t ≤ last → F.post times t n → n ≤ 719 }
    ensures { (f : ℕ → ℕ) → ((t n : ℕ) → t ≤ last → F.post times t n → n ≡ f t) → result ≡ weight_times weights.now k last f }
{
    let mut sum = 0;
    for t in 0..last + 1 {
        sum += times(t) * words::at(weights, k * 720 + t);
    }
    sum
}

// Never where no weight is on time, always where all is, and otherwise the share.
fn judged(on: u64, total: u64) -> Punctuality
    requires { (on ≤ 100000000000000) × (total ≤ 100000000000000) }
    ensures { result ≡ punctuality_answer (judgement on total) }
{
    if on == 0 {
        return Punctuality::Never;
    }
    if on == total {
        return Punctuality::Always;
    }
    Punctuality::Share(share(on, total))
}

// The three shares of a whole.
fn shares_of(on: u64, after: u64, total: u64) -> Shares
    requires { (on + after ≤ total) × (total ≤ 100000000000000) }
    ensures { result ≡ shares_answer (shares_in on after total) }
{
    Shares {
        on_time: share(on, total),
        late: share(after, total),
        not_arrived: share(total - (on + after), total),
    }
}

// The figures of train k for a limit of so many minutes after plan.
pub fn figures_of(weights: &[u64], k: u64, plan: u64, last: u64, total: u64, limit: u16) -> Figures
    requires { Weighed weights.now k last total × (plan ≤ 719) }
    ensures words { result ≡ figures_answer (figures_in weights.now k plan last total limit) }
    ensures case { (C : Case) (arrived : List (Arrival Entry)) → Holds C arrived weights.now k plan last total → result ≡ figures_answer (figures C arrived k limit) }
{
    let end = plan + u64::from(limit);
    let on = sum_of(weights, k, last, |t| u64::from(t <= end));
    let after = sum_of(weights, k, last, |t| u64::from(t > end));
    Figures {
        punctuality: judged(on, total),
        shares: shares_of(on, after, total),
        sum: sum_of(weights, k, last, |t| t.saturating_sub(plan)),
        weight: on + after,
    }
}
