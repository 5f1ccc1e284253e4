// What is sound in the body of a track's or a couple's field. A verdict is what is wrong, if anything is.
#![tactic(auto)]

ghost use Rattle.std.specs.Prelude.{◌≡◌, ◌+◌, ◌*◌, ◌≤◌, ◌<◌, length};
ghost use Rattle.file_fields.specs.Faults.{number_in};
ghost use Rattle.file_bodies.specs.Bodies.{ends, joined, track_verdict, alike, in_couple, taken, couple_verdict};

use file_fields::refusals::Fault;

// What a case says before a field: its bytes, the place among them where its tracks begin, in fields of six bytes, and how many tracks and stations it has.
#[derive(Clone, Copy)]
pub struct Known<'a> {
    pub bytes: &'a [u8],
    pub base: usize,
    pub tracks: usize,
    pub stations: usize,
    pub ghost few: { (base ≤ 4096) × (tracks ≤ 40) },
}

// Whether the couple's field at i has the track t.
#[tactic(auto, unfolding(file_bodies::specs::Bodies::in_couple))]
fn in_couple(earlier: &[u8], i: usize, t: usize) -> bool
    requires { i ≤ 65536 }
    ensures { result ≡ in_couple earlier.now i t }
{
    t == file_fields::byte(earlier, i + 3) || t == file_fields::byte(earlier, i + 4)
}

// Whether one of n couples, in fields of five bytes from first on, has the track t.
fn is_taken(earlier: &[u8], first: usize, n: usize, t: usize) -> bool
    requires { (first ≤ 4096) × (n ≤ 20) }
    ensures { result ≡ taken earlier.now first n t }
{
    (0..n).any(|k| in_couple(earlier, first + 5 * k, t))
}

impl Known<'_> {
    // Whether track j leads between these ends.
    #[tactic(auto, unfolding(file_bodies::specs::Bodies::ends))]
    fn leads(&self, j: usize, from: usize, to: usize) -> bool
        requires { j < self.now.tracks }
        ensures { result ≡ ends self.now.bytes.now (self.now.base + 6 * j) from to }
    {
        let at = self.base + 6 * j;
        file_fields::byte(self.bytes, at + 3) == from && file_fields::byte(self.bytes, at + 4) == to
    }

    // Whether one of the tracks leads between these ends.
    pub fn has_track(&self, from: usize, to: usize) -> bool
        ensures { result ≡ joined self.now.bytes.now self.now.base self.now.tracks from to }
    {
        (0..self.tracks).any(|j| self.leads(j, from, to))
    }

    // Whether tracks i and j have ends that mirror and equal capacities.
    #[tactic(auto, unfolding(file_bodies::specs::Bodies::alike))]
    fn are_alike(&self, i: usize, j: usize) -> bool
        requires { (i < self.now.tracks) × (j < self.now.tracks) }
        ensures { result ≡ alike self.now.bytes.now (self.now.base + 6 * i) (self.now.base + 6 * j) }
    {
        let one = self.base + 6 * i;
        let other = self.base + 6 * j;
        let to = file_fields::byte(self.bytes, other + 4);
        let from = file_fields::byte(self.bytes, other + 3);
        self.leads(i, to, from)
            && file_fields::byte(self.bytes, one + 5) == file_fields::byte(self.bytes, other + 5)
    }

    // A track: its capacity is in range, and its ends are two known stations that no earlier track joins this way.
    #[tactic(auto, unfolding(file_bodies::specs::Bodies::track_verdict))]
    pub fn track_verdict(&self, body: &[u8]) -> Result<(), Fault>
        ensures { number_in result ≡ track_verdict self.now.bytes.now self.now.base self.now.tracks self.now.stations body.now }
    {
        let from = file_fields::byte(body, 0);
        let to = file_fields::byte(body, 1);
        if file_fields::byte(body, 2) == 0 {
            return Err(Fault::OutOfRange);
        }
        if self.stations <= from || self.stations <= to || from == to || self.has_track(from, to) {
            return Err(Fault::WrongEnds);
        }
        Ok(())
    }

    // A couple after n others: two known tracks whose ends mirror, of equal capacity, neither of them already coupled.
    #[tactic(auto, unfolding(file_bodies::specs::Bodies::couple_verdict))]
    pub fn couple_verdict(&self, n: usize, body: &[u8]) -> Result<(), Fault>
        requires { (n ≤ 20) × (5 * n ≤ length self.now.bytes.now) × (length self.now.bytes.now ≤ 4096) }
        ensures { number_in result ≡ couple_verdict self.now.bytes.now self.now.base self.now.tracks n body.now }
    {
        let i = file_fields::byte(body, 0);
        let j = file_fields::byte(body, 1);
        let first = self.bytes.len() - 5 * n;
        if self.tracks <= i
            || self.tracks <= j
            || !self.are_alike(i, j)
            || is_taken(self.bytes, first, n, i)
            || is_taken(self.bytes, first, n, j)
        {
            return Err(Fault::WrongCouple);
        }
        Ok(())
    }
}
