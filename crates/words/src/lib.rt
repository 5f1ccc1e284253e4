// Words of a slice, read and written at any index: past the end a read gives 0 and a write does nothing.
// And where in the tables, and in the words of a run, each kind of word begins.
// They stay flat slices, and a word of 0 for no arrival: `ran_in`, `Left` and `Planned` tell of them by these numbers, and `run_to` is lent them.
#![tactic(auto)]

ghost use Rattle.std.specs.Prelude.{◌≡◌, ◌+◌, ◌<◌, get_or, set, MatchOption};

// In the tables: how many trains there are.
pub const TRAINS: u64 = 0;

// In the tables: the last minute.
pub const LAST_MINUTE: u64 = 1;

// In the tables: the safety time.
pub const SAFETY: u64 = 2;

// In the tables, a word for each of eight trains: the trains by order.
pub const ORDER: u64 = 8;

// In the tables, a word for each train: the code of its last station.
pub const LAST_STATIONS: u64 = 16;

// In the tables, a word for each train: its first arrival.
pub const FIRST_ARRIVALS: u64 = 32;

// In the tables, a word for each train: how many delays it has.
pub const SIZES: u64 = 40;

// In the tables, eight words for each train: its delays.
pub const DELAYS: u64 = 48;

// In the tables, eight words for each train: the weights of its delays.
pub const WEIGHTS: u64 = 112;

// In the tables, a word for each element: its capacity.
pub const CAPACITIES: u64 = 176;

// In the tables, 128 words for each train: the element after each place.
pub const NEXT: u64 = 240;

// In the tables, 128 words for each train: its planned minutes on each element.
pub const STAYS: u64 = 1264;

// In the tables, a word for each element: its partner.
pub const PARTNERS: u64 = 2288;

// In a run's words, after a word for each train's place: when each is due.
pub const DUE: u64 = 8;

// In a run's words: the minute after each train's arrival.
pub const ARRIVALS: u64 = 16;

// In a run's words, eight for each element: the ends of the trains' blocks on it.
pub const BLOCKS: u64 = 24;

// How many words a run has.
pub const RUN_SIZE: usize = 544;

// In what a run asks for, after a turn for each train: how many elements each has entered.
pub const MOVES: u64 = 8;

// How many words there are of what a run asks for.
pub const ASKS_SIZE: usize = 16;

// The code of the way out, which comes after those of the elements.
pub const WAY_OUT: u64 = 64;

// The code of the place outside.
pub const OUTSIDE: u64 = 65;

// A code that no place has.
pub const NOWHERE: u64 = 127;

// The turns of a minute: for each of 128 codes one for each of eight trains.
pub const TURNS: u64 = 1024;

// The word at i, and 0 past the end.
pub fn at(l: &[u64], i: u64) -> u64
    ensures { result ≡ get_or l.now i 0 }
{
    l.get(i as usize).copied().unwrap_or(0)
}

// Word i set to v, where there is such a word.
pub fn put(l: &mut [u64], i: u64, v: u64)
    ensures { l.new ≡ set l.old i v }
{
    // Tried with `get_mut`: after it a proof knows the length of the slice and no longer its words.
    let j = i as usize;
    if j < l.len() {
        l[j] = v;
    }
}

// The partner of element e, where the tables name one: the word of an element that has none is 0.
pub fn partner(tables: &[u64], e: u64) -> Option<u64>
    requires { e < 4294967296 }
    ensures { MatchOption result (get_or tables.now (2288 + e) 0 ≡ 0) (λ p. (p ≡ get_or tables.now (2288 + e) 0) × (0 < p)) }
{
    match at(tables, PARTNERS + e) {
        0 => None,
        p => Some(p),
    }
}
