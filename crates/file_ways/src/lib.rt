// The tables of the trains' ways: for each train and element which comes next and how long it stays there, filled from the bytes of accepted files.
// The parts stay slices: each is cut from the tables by its range, and a cut made an array of its length is a conversion that can fail.
#![tactic(auto)]

ghost use Rattle.std.specs.Prelude.{◌≡◌, ◌++◌, ◌+◌, ◌-◌, ◌≤◌, ◌<◌, length, set, replicate, MatchOption};
ghost use Rattle.rules.specs.Files.{word, byte, leads};
ghost use Rattle.rules.specs.Turns.{track_from};
ghost use Rattle.file_tables.specs.Model.{stops_from, stop_in, track_in, tracks_from, track_code, first_station, next_row_of, stay_row, next_part, stay_part};

use file_tables::{Tracks, Trains};

// Whether the track's field at i leads from one station to the other.
// `leads` of file_tracks compares the same bytes of a case still being read (`ends`); shared, one line would become a function, a law and a call.
#[tactic(auto, unfolding(rules::specs::Files::leads, file_tables::specs::Model::track_in))]
fn leads_at(case: &[u8], i: usize, from: usize, to: usize) -> bool
    requires { i ≤ 20000 }
    ensures { result ≡ leads from to (track_in case.now i) }
{
    file_fields::byte(case, i + 3) == from && file_fields::byte(case, i + 4) == to
}

// The number of the track from one station to the other, where there is one.
fn track_from(case: &[u8], tracks: Tracks, from: usize, to: usize) -> Option<usize>
    ensures { MatchOption result (track_from from to (tracks_from case.now tracks.count tracks.at) ≡ tracks.count)
        (λ j. (j ≡ track_from from to (tracks_from case.now tracks.count tracks.at)) × (j < tracks.count)) }
{
    (0..tracks.count).find(|j| leads_at(case, tracks.at + 6 * *j, from, to))
}

// The code of the track from the stop at i to the next.
// Where no track leads there it is the code after the last, as `track_code` in specs/Model and `track_from` of the rules have it.
fn track_code(case: &[u8], tracks: Tracks, i: usize) -> usize
    requires { i ≤ 10000000 }
    ensures { (result ≡ track_code (tracks_from case.now tracks.count tracks.at) (stop_in case.now i) (stop_in case.now (i + 5))) × (result ≤ 64) }
{
    let from = file_fields::byte(case, i);
    let to = file_fields::byte(case, i + 5);
    24 + track_from(case, tracks, from, to).unwrap_or(tracks.count)
}

// What is next at the stop at i and on the track from there.
fn next_step(case: &[u8], tracks: Tracks, i: usize, row: &mut [u64])
    requires { i ≤ 10000000 }
    ensures { row.new ≡ set (set row.old (byte case.now i)
        (track_code (tracks_from case.now tracks.count tracks.at) (stop_in case.now i) (stop_in case.now (i + 5))))
        (track_code (tracks_from case.now tracks.count tracks.at) (stop_in case.now i) (stop_in case.now (i + 5))) (byte case.now (i + 5)) }
{
    let c = track_code(case, tracks, i);
    file_tables::put(row, file_fields::byte(case, i), c);
    file_tables::put(row, c, file_fields::byte(case, i + 5));
}

// Nothing is next (127), but outside the first station.
fn start_row(case: &[u8], n: usize, i: usize, row: &mut [u64])
    requires { length row.old ≡ 128 }
    ensures { row.new ≡ replicate 65 127 ++ replicate 63 (first_station (stops_from case.now n i)) }
{
    row.fill(127);
    if 0 < n {
        row[65..].fill(file_fields::byte(case, i) as u64);
    }
}

// What is next for the train at t.
fn next_row(case: &[u8], tracks: Tracks, t: usize, row: &mut [u64])
    requires { (t ≤ 1000000) × (length row.old ≡ 128) }
    ensures { row.new ≡ next_row_of case.now (tracks_from case.now tracks.count tracks.at) t }
{
    let n = file_tables::stops_at(case, t);
    start_row(case, n, t + 5, row);
    for k in 1..n {
        next_step(case, tracks, t + 5 * k, row);
    }
    if 0 < n {
        file_tables::put(row, file_fields::byte(case, t + 5 * n), 64);
    }
}

// What is next for each of the trains, and nothing for the others.
pub fn next_table(case: &[u8], tracks: Tracks, trains: Trains, out: &mut [u64])
    requires { length out.old ≡ 1024 }
    ensures { out.new ≡ next_part case.now (tracks_from case.now tracks.count tracks.at) trains.count trains.at }
{
    out.fill(127);
    file_tables::each_train(case, trains, 128, out, |at, row| {
        next_row(case, tracks, at, row);
    });
}

// The planned minutes at the stop at i.
fn stay_stop(case: &[u8], i: usize, row: &mut [u64])
    requires { i ≤ 10000000 }
    ensures { row.new ≡ set row.old (byte case.now i) (word case.now (i + 3) - word case.now (i + 1)) }
{
    let arrival = file_fields::word(case, i + 1);
    let departure = file_fields::word(case, i + 3);
    let minutes = departure.saturating_sub(arrival);
    file_tables::put(row, file_fields::byte(case, i), minutes);
}

// The planned minutes on the track from the stop at i to the next.
fn stay_drive(case: &[u8], tracks: Tracks, i: usize, row: &mut [u64])
    requires { i ≤ 10000000 }
    ensures { row.new ≡ set row.old
        (track_code (tracks_from case.now tracks.count tracks.at) (stop_in case.now i) (stop_in case.now (i + 5)))
        (word case.now (i + 5 + 1) - word case.now (i + 3)) }
{
    let departure = file_fields::word(case, i + 3);
    let arrival = file_fields::word(case, i + 5 + 1);
    let minutes = arrival.saturating_sub(departure);
    file_tables::put(row, track_code(case, tracks, i), minutes);
}

// The planned minutes of the train at t.
fn stay_row(case: &[u8], tracks: Tracks, t: usize, row: &mut [u64])
    requires { (t ≤ 1000000) × (length row.old ≡ 128) }
    ensures { row.new ≡ stay_row case.now (tracks_from case.now tracks.count tracks.at) t }
{
    let n = file_tables::stops_at(case, t);
    row.fill(0);
    for k in 1..n {
        stay_stop(case, t + 5 * k, row);
        stay_drive(case, tracks, t + 5 * k, row);
    }
    if 0 < n {
        stay_stop(case, t + 5 * n, row);
    }
}

// The planned minutes of each of the trains, and 0 for the others.
pub fn stay_table(case: &[u8], tracks: Tracks, trains: Trains, out: &mut [u64])
    requires { length out.old ≡ 1024 }
    ensures { out.new ≡ stay_part case.now (tracks_from case.now tracks.count tracks.at) trains.count trains.at }
{
    out.fill(0);
    file_tables::each_train(case, trains, 128, out, |at, row| {
        stay_row(case, tracks, at, row);
    });
}
