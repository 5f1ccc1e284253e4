// What is sound in the body of a head's, a station's or a delay table's field, and how long each field's body is. A verdict is what
// is wrong, if anything is. The bodies of tracks, couples and trains are judged by `file_tracks` and `file_trains`, by the definitions that stand here.
#![tactic(auto)]

ghost use Rattle.std.specs.Prelude.{◌≡◌, ◌≤◌, length};
ghost use Rattle.file_fields.specs.Faults.{number_in};
ghost use Rattle.file_bodies.specs.Bodies.{head_verdict, station_verdict, bad_pair, pairs_verdict, table_verdict, bad_length};

use file_fields::limits;
use file_fields::refusals::Fault;

// A head: last minute, safety time and room are in range.
#[tactic(auto, unfolding(crate::specs::Bodies::head_verdict))]
pub fn head_verdict(body: &[u8]) -> Result<(), Fault>
    ensures { number_in result ≡ head_verdict body.now }
{
    let last = file_fields::word(body, 0);
    let safety = file_fields::byte(body, 2);
    let room = file_fields::word(body, 3);
    if last == 0 || 719 < last || 30 < safety || room == 0 || 1024 < room {
        return Err(Fault::OutOfRange);
    }
    Ok(())
}

// A station: its capacity is in range; a byte is at most 255.
#[tactic(auto, unfolding(crate::specs::Bodies::station_verdict))]
pub fn station_verdict(body: &[u8]) -> Result<(), Fault>
    ensures { number_in result ≡ station_verdict body.now }
{
    if file_fields::byte(body, 0) == 0 {
        return Err(Fault::OutOfRange);
    }
    Ok(())
}

// Whether pair k has no weight, or a delay that does not rise.
#[tactic(auto, unfolding(crate::specs::Bodies::bad_pair))]
fn bad_pair(body: &[u8], k: usize) -> bool
    requires { k ≤ 65536 }
    ensures { result ≡ bad_pair body.now k }
{
    let delay = file_fields::byte(body, 2 * k + 1);
    let weight = file_fields::byte(body, 2 * k + 2);
    weight == 0 || (k != 0 && delay <= file_fields::byte(body, 2 * (k - 1) + 1))
}

// A delay table after others, the last of which has the type `last`.
// `last` holds after a first table only: an Option would be made in the reader from the count and the type that `Seen` has, and undone here.
#[tactic(auto, unfolding(crate::specs::Bodies::table_verdict))]
pub fn table_verdict(tables: usize, last: usize, body: &[u8]) -> Result<(), Fault>
    requires { (1 ≤ length body.now) × (length body.now ≤ 65536) }
    ensures { number_in result ≡ table_verdict tables last body.now }
{
    if tables != 0 && file_fields::byte(body, 0) <= last {
        return Err(Fault::WrongTable);
    }
    pairs_verdict(body)
}

// Each pair is sound, and the weights sum to 100.
fn pairs_verdict(body: &[u8]) -> Result<(), Fault>
    requires { (1 ≤ length body.now) × (length body.now ≤ 65536) }
    ensures { number_in result ≡ pairs_verdict body.now }
{
    let pairs = (body.len() - 1) / 2;
    let mut total = 0;
    for k in 0..pairs {
        if bad_pair(body, k) {
            return Err(Fault::WrongTable);
        }
        total += file_fields::byte(body, 2 * k + 2);
    }
    if total == 100 {
        return Ok(());
    }
    Err(Fault::WrongTable)
}

// Whether no field of the tag has n bytes.
#[tactic(auto, unfolding(crate::specs::Bodies::bad_length))]
pub fn bad_length(tag: usize, n: usize) -> bool
    ensures { result ≡ bad_length tag n }
{
    match tag {
        limits::HEAD => n != 5,
        limits::STATION => n != 1,
        limits::TRACK => n != 3,
        limits::TRAIN => n < 12 || 42 < n || n % 5 != 2,
        limits::COUPLE => n != 2,
        _ => n < 3 || 17 < n || n % 2 != 1,
    }
}
