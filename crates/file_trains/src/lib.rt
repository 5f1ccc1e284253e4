// What is sound in the body of a train's field: its path, then its times. A verdict is what is wrong, if anything is.
#![tactic(auto)]

ghost use Rattle.std.specs.Prelude.{◌≡◌, ◌≤◌, ◌<◌, length};
ghost use Rattle.file_fields.specs.Faults.{number_in};
ghost use Rattle.file_bodies.specs.Bodies.{stops, stop, arrival, departure, repeated, bad_stop, bad_time, train_verdict, times_verdict};

use file_fields::refusals::Fault;
use file_tracks::Known;

// Stop k of a train's body.
#[derive(Clone, Copy)]
struct Stop<'a> {
    body: &'a [u8],
    k: usize,
    ghost inside: { k < stops body.now },
}

impl<'a> Stop<'a> {
    fn new(body: &'a [u8], k: usize) -> Self
        requires { k < stops body.now }
        ensures { (result.body.now ≡ body.now) × (result.k ≡ k) }
    {
        Stop { body, k }
    }

    fn station(&self) -> usize
        ensures { result ≡ stop self.now.body.now self.now.k }
    {
        file_fields::byte(self.body, 5 * self.k + 2)
    }

    fn arrival(&self) -> usize
        ensures { result ≡ arrival self.now.body.now self.now.k }
    {
        file_fields::word(self.body, 5 * self.k + 3)
    }

    fn departure(&self) -> usize
        ensures { result ≡ departure self.now.body.now self.now.k }
    {
        file_fields::word(self.body, 5 * self.k + 5)
    }

    // Whether its station is that of an earlier stop.
    fn is_again(&self) -> bool
        ensures { result ≡ repeated self.now.body.now self.now.k }
    {
        let here = self.station();
        (0..self.k).any(|k| Stop::new(self.body, k).station() == here)
    }

    // Whether its station is unknown or repeated, or no track leads to it from the stop before.
    #[tactic(auto, unfolding(file_bodies::specs::Bodies::bad_stop))]
    fn is_off_path(&self, known: &Known) -> bool
        ensures { result ≡ bad_stop known.now.bytes.now known.now.base known.now.tracks known.now.stations self.now.body.now self.now.k }
    {
        let here = self.station();
        known.stations <= here
            || self.is_again()
            || (self.k != 0 && !known.has_track(Stop::new(self.body, self.k - 1).station(), here))
    }

    // Whether the train leaves before it comes, or comes no later than it left the stop before.
    #[tactic(auto, unfolding(file_bodies::specs::Bodies::bad_time))]
    fn is_out_of_time(&self) -> bool
        ensures { result ≡ bad_time self.now.body.now self.now.k }
    {
        self.departure() < self.arrival()
            || (self.k != 0 && self.arrival() <= Stop::new(self.body, self.k - 1).departure())
    }
}

// A train: first its path, then its times.
pub fn train_verdict(known: &Known, body: &[u8]) -> Result<(), Fault>
    requires { 2 ≤ length body.now }
    ensures { number_in result
        ≡ train_verdict known.now.bytes.now known.now.base known.now.tracks known.now.stations body.now }
{
    let stops = (body.len() - 2) / 5;
    if (0..stops).any(|k| Stop::new(body, k).is_off_path(known)) {
        return Err(Fault::WrongPath);
    }
    times_verdict(known.bytes, body)
}

// The times of a train's stops, and the last of them against the head's last minute.
fn times_verdict(earlier: &[u8], body: &[u8]) -> Result<(), Fault>
    requires { 2 ≤ length body.now }
    ensures { number_in result ≡ times_verdict earlier.now body.now }
{
    let stops = (body.len() - 2) / 5;
    let last = file_fields::word(body, body.len() - 2);
    if (0..stops).any(|k| Stop::new(body, k).is_out_of_time())
        || file_fields::word(earlier, 3) < last
    {
        return Err(Fault::WrongTimes);
    }
    Ok(())
}
