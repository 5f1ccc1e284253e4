// The tags of the fields and how many of each a file may have.
// A tag stays a number: `field_at` and `nth` give any that a file has, as `viewed` says, and `bad_length` and `frame_verdict` judge all numbers.
pub const HEAD: usize = 1;

pub const STATION: usize = 2;

pub const TRACK: usize = 3;

pub const TRAIN: usize = 4;

pub const TABLE: usize = 5;

pub const COUPLE: usize = 6;

pub const LAST_TAG: usize = 6;

pub const MOST_STATIONS: usize = 24;

pub const MOST_TRACKS: usize = 40;

pub const MOST_TRAINS: usize = 7;

pub const MOST_TABLES: usize = 8;

pub const MOST_COUPLES: usize = 20;
