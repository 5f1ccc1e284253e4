// How a train of the single run is let in, on words: where each train is, when it is due, when it arrived, and what it blocks.
#![tactic(auto)]

ghost use Rattle.std.specs.Prelude.{◌≡◌, ◌≤◌, ◌<◌, get_or};
ghost use Rattle.moving.specs.Words.{Small, holding, crowd, across, lets, left_in, stood_in, arrived_in, entered_in};

// Whether train k stands on e, and whether it blocks e in minute t.
#[tactic(auto, unfolding(crate::specs::Words::holding))]
fn holding(run: &[u64], t: u64, e: u64, k: u64) -> u64
    requires { (k < 4294967296) × (e < 4294967296) }
    ensures { (result ≡ holding t e run.now k) × (result ≤ 2) }
{
    let end = words::at(run, words::BLOCKS + e * 8 + k);
    u64::from(words::at(run, k) == e) + u64::from(t < end)
}

// The words of a case's tables, each less than 2 to the power of 32.
#[derive(Clone, Copy)]
pub struct Tables<'a> {
    pub words: &'a [u64],
    pub ghost small: { Small words.now },
}

impl<'a> Tables<'a> {
    // The word at i, and 0 past the end.
    pub fn at(&self, i: u64) -> u64
        ensures { (result ≡ get_or self.now.words.now i 0) × (result < 4294967296) }
    {
        words::at(self.words, i)
    }

    // How many trains stand on or block e in minute t.
    #[tactic(auto, unfolding(crate::specs::Words::crowd))]
    fn crowd(&self, run: &[u64], t: u64, e: u64) -> u64
        requires { e < 4294967296 }
        ensures { result ≡ crowd self.now.words.now t e run.now }
    {
        let n = self.at(words::TRAINS);
        let mut count: u64 = 0;
        for k in 0..n {
            count += holding(run, t, e, k);
        }
        count
    }

    // How many trains stand on or block the partner of e in minute t; 0 where e has none.
    #[tactic(auto, unfolding(crate::specs::Words::across))]
    fn across(&self, run: &[u64], t: u64, e: u64) -> u64
        requires { e < 65 }
        ensures { result ≡ across self.now.words.now t e run.now }
    {
        match words::partner(self.words, e) {
            Some(other) => self.crowd(run, t, other),
            None => 0,
        }
    }

    // Whether e lets one more train in, which it does not while its partner holds one; the way out has no limit.
    #[tactic(auto, unfolding(crate::specs::Words::lets))]
    pub fn lets(&self, run: &[u64], t: u64, e: u64) -> bool
        requires { e < 65 }
        ensures { result ≡ lets self.now.words.now t e run.now }
    {
        e == words::WAY_OUT
            || (self.crowd(run, t, e) < self.at(words::CAPACITIES + e)
                && self.across(run, t, e) == 0)
    }

    // Train k blocks the element that it leaves until the safety time is over; nothing outside is blocked.
    #[tactic(auto, unfolding(crate::specs::Words::left_in))]
    fn leave(&self, run: &mut [u64], t: u64, k: u64)
        requires { (k < 4294967296) × (t < 65536) }
        ensures { run.new ≡ left_in self.now.words.now t k run.old }
    {
        let p = words::at(run, k);
        if p < words::OUTSIDE {
            let end = t + self.at(words::SAFETY);
            words::put(run, words::BLOCKS + p * 8 + k, end);
        }
    }

    // Train k stands on e until it is due again.
    #[tactic(auto, unfolding(crate::specs::Words::stood_in))]
    fn stand(&self, run: &mut [u64], t: u64, e: u64, k: u64)
        requires { (k < 4294967296) × (t < 65536) × (e < 65) }
        ensures { run.new ≡ stood_in self.now.words.now t e k run.old }
    {
        let due = t + self.at(words::STAYS + k * 128 + e);
        words::put(run, k, e);
        words::put(run, words::DUE + k, due);
    }

    // Train k arrives, if e is its last station.
    #[tactic(auto, unfolding(crate::specs::Words::arrived_in))]
    fn arrive(&self, run: &mut [u64], t: u64, e: u64, k: u64)
        requires { (k < 4294967296) × (t < 65536) }
        ensures { run.new ≡ arrived_in self.now.words.now t e k run.old }
    {
        let goal = self.at(words::LAST_STATIONS + k);
        let arrived = words::ARRIVALS + k;
        if goal == e && words::at(run, arrived) == 0 {
            words::put(run, arrived, t + 1);
        }
    }

    // Train k enters e.
    // Minute, element and train stay apart, here and above: `leave`, `lets` and `crowd` take two of them, and each clause asks of its own.
    #[tactic(auto, unfolding(crate::specs::Words::entered_in))]
    pub fn enter(&self, run: &mut [u64], t: u64, e: u64, k: u64)
        requires { (k < 4294967296) × (t < 65536) × (e < 65) }
        ensures { run.new ≡ entered_in self.now.words.now t e k run.old }
    {
        self.leave(run, t, k);
        self.stand(run, t, e, k);
        self.arrive(run, t, e, k);
    }
}
