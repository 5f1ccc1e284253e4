// The reader of case and book files.
#![tactic(auto)]

ghost use Rattle.std.specs.Prelude.{◌≡◌, false, ◌+◌, ◌≤◌, ◌<◌, length, take};
ghost use Rattle.file_fields.specs.Faults.{number_in};
ghost use Rattle.file_bodies.specs.Bodies.{bad_length};
ghost use Rattle.file_reader.specs.Reading.{out_of_place, too_many, frame_verdict, body_verdict, field_verdict, next, field_of, at_end, reading};
ghost use Rattle.file_reader.specs.Told.{judged_of, told};
ghost use Rattle.rules.specs.Files as files;
ghost use Rattle.file_reader.specs.Answers.{reading_of};
ghost use Rattle.file_reader.specs.Facts.{Within};

use file_fields::limits;
use file_fields::refusals::Fault;
use file_tracks::Known;

// How many fields of each kind an accepted file has.
#[derive(Clone, Copy, Default)]
pub struct Counts {
    pub stations: usize,
    pub tracks: usize,
    pub trains: usize,
    pub tables: usize,
    pub couples: usize,
}

// What has been seen of a file up to the next field's tag: its offset, the last tag, how many heads and fields of each other kind, and the last table's type.
#[derive(Clone, Copy, Default)]
pub struct Seen {
    pub at: usize,
    pub tag: usize,
    pub heads: usize,
    pub kind: usize,
    pub counts: Counts,
}

// The refusal of a case or a book: what is wrong, and at which place of the file.
#[derive(Clone, Copy, PartialEq, Eq)]
pub struct Misread {
    pub fault: Fault,
    pub place: usize,
}

// A case or a book that is being read, and what has been seen of it.
// `book` stays a bool, as `reading`, `field_verdict` and `at_end` in specs/Reading have it; a book is told from a case at two places only.
#[derive(Clone, Copy)]
struct Reader<'a> {
    file: &'a [u8],
    book: bool,
    seen: Seen,
    ghost within: { Within file.now seen },
}

impl<'a> Reader<'a> {
    // 3: in a case a first field that is no head, a second head or a falling tag; in a book a tag other than 5.
    #[tactic(auto, unfolding(crate::specs::Reading::out_of_place))]
    fn out_of_place(&self, tag: usize) -> bool
        ensures { result ≡ out_of_place self.now.book self.now.seen tag }
    {
        if self.book {
            tag != limits::TABLE
        } else if self.seen.heads == 0 {
            tag != limits::HEAD
        } else {
            tag == limits::HEAD || tag < self.seen.tag
        }
    }

    // 5: one station, track, train, table or couple too many.
    #[tactic(auto, unfolding(crate::specs::Reading::too_many))]
    fn one_too_many(&self, tag: usize) -> bool
        ensures { result ≡ too_many self.now.seen tag }
    {
        let counts = self.seen.counts;
        match tag {
            limits::STATION => limits::MOST_STATIONS <= counts.stations,
            limits::TRACK => limits::MOST_TRACKS <= counts.tracks,
            limits::TRAIN => limits::MOST_TRAINS <= counts.trains,
            limits::TABLE => limits::MOST_TABLES <= counts.tables,
            limits::COUPLE => limits::MOST_COUPLES <= counts.couples,
            _ => false,
        }
    }

    // 2, 3, 4, 1 and 5, in this order, of a field with this tag and n bytes of body.
    #[tactic(auto, unfolding(crate::specs::Reading::frame_verdict))]
    fn frame_verdict(&self, tag: usize, n: usize) -> Result<(), Fault>
        requires { (self.now.seen.at + 3 ≤ length self.now.file.now) × (n < 65536) }
        ensures { number_in result ≡ frame_verdict (length self.now.file.now) self.now.book self.now.seen tag n }
    {
        if tag == 0 || limits::LAST_TAG < tag {
            return Err(Fault::UnknownTag);
        }
        if self.out_of_place(tag) {
            return Err(Fault::Misplaced);
        }
        if file_bodies::bad_length(tag, n) {
            return Err(Fault::WrongLength);
        }
        if self.file.len() < self.seen.at + 3 + n {
            return Err(Fault::Overrun);
        }
        if self.one_too_many(tag) {
            return Err(Fault::WrongCount);
        }
        Ok(())
    }

    // 6 to 10 and 18, by tag, of a body of a possible length.
    #[tactic(auto, unfolding(crate::specs::Reading::body_verdict))]
    fn body_verdict(&self, tag: usize, body: &[u8]) -> Result<(), Fault>
        requires { (1 ≤ tag) × (tag ≤ 6) × (bad_length tag (length body.now) ≡ false) }
        ensures { number_in result ≡ body_verdict (take self.now.seen.at self.now.file.now) self.now.seen tag body.now }
    {
        let seen = self.seen;
        let counts = seen.counts;
        let known = Known {
            bytes: &self.file[..seen.at],
            base: 8 * seen.heads + 4 * counts.stations,
            tracks: counts.tracks,
            stations: counts.stations,
        };
        match tag {
            limits::HEAD => file_bodies::head_verdict(body),
            limits::STATION => file_bodies::station_verdict(body),
            limits::TRACK => known.track_verdict(body),
            limits::TRAIN => file_trains::train_verdict(&known, body),
            limits::COUPLE => known.couple_verdict(counts.couples, body),
            _ => file_bodies::table_verdict(counts.tables, seen.kind, body),
        }
    }

    // What is wrong with the field at hand, if anything is.
    #[tactic(auto, unfolding(crate::specs::Reading::field_verdict))]
    fn field_verdict(&self) -> Result<(), Fault>
        ensures { number_in result ≡ field_verdict self.now.book self.now.file.now self.now.seen }
    {
        let at = self.seen.at;
        let body = at + 3;
        if self.file.len() < body {
            return Err(Fault::Overrun);
        }
        let tag = file_fields::byte(self.file, at);
        let n = file_fields::word(self.file, at + 1);
        self.frame_verdict(tag, n)?;
        self.body_verdict(tag, &self.file[body..body + n])
    }

    // What has been seen after the field at hand.
    #[tactic(auto, unfolding(crate::specs::Reading::next, crate::specs::Reading::after, crate::specs::Reading::counted, crate::specs::Reading::newer))]
    fn passed(&self) -> Seen
        ensures { result ≡ next self.now.file.now self.now.seen }
    {
        let at = self.seen.at;
        let tag = file_fields::byte(self.file, at);
        let n = file_fields::word(self.file, at + 1);
        let mut seen = Seen {
            at: at + 3 + n,
            tag,
            ..self.seen
        };
        match tag {
            limits::HEAD => seen.heads += 1,
            limits::STATION => seen.counts.stations += 1,
            limits::TRACK => seen.counts.tracks += 1,
            limits::TRAIN => seen.counts.trains += 1,
            limits::TABLE => {
                seen.counts.tables += 1;
                seen.kind = file_fields::byte(self.file, at + 3);
            }
            limits::COUPLE => seen.counts.couples += 1,
            _ => {}
        }
        seen
    }

    // What has been seen after the field at hand if it is sound, or else what is wrong with it.
    #[tactic(auto, unfolding(crate::specs::Reading::field_of))]
    fn judge(&self) -> Result<Seen, Fault>
        ensures { judged_of result ≡ field_of self.now.book self.now.file.now self.now.seen }
    {
        self.field_verdict()?;
        Ok(self.passed())
    }

    // The end of the file: a case without a head, a station or a train is refused.
    #[tactic(auto, unfolding(crate::specs::Reading::at_end))]
    fn finish(&self) -> Result<Counts, Misread>
        ensures { told result ≡ at_end self.now.book (length self.now.file.now) self.now.seen }
    {
        let seen = self.seen;
        if !self.book && (seen.heads == 0 || seen.counts.stations == 0 || seen.counts.trains == 0) {
            return Err(Misread {
                fault: Fault::WrongCount,
                place: self.file.len(),
            });
        }
        Ok(seen.counts)
    }
}

// Reads a case, or a book, to its end: the first field that isn't sound ends the reading.
fn read(file: &[u8], book: bool) -> Result<Counts, Misread>
    ensures { told result ≡ reading book file.now }
{
    let mut seen = Seen::default();
    // Fields differ in length, so no range counts the turns: the place moves by each field's own.
    while seen.at < file.len() {
        let reader = Reader { file, book, seen };
        let judged = reader.judge().map_err(|fault| Misread {
            fault,
            place: seen.at,
        });
        // A rule of the project: a field's answer is taken apart by let-else, and a refusal returns at once with its place; here `map` hands on the Err.
        let Ok(next) = judged else {
            return judged.map(|seen| seen.counts);
        };
        seen = next;
    }
    Reader { file, book, seen }.finish()
}

// Reads a case: how many fields of each kind it has, or what is wrong and where.
pub fn read_case(file: &[u8]) -> Result<Counts, Misread>
    ensures { told result ≡ reading_of (files.read files.File.case file.now) }
{
    read(file, false)
}

// Reads a book likewise.
pub fn read_book(file: &[u8]) -> Result<Counts, Misread>
    ensures { told result ≡ reading_of (files.read files.File.book file.now) }
{
    read(file, true)
}
