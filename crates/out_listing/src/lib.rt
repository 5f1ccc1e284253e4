// The listing's text: decimal numbers, lines, trains, and the line of a refusal.
// Where the text is too short, what does not fit is left out, and the place after it is the text's length.
#![tactic(auto)]

ghost use Rattle.std.specs.Prelude.{◌≡◌, [], ◌∷◌, ◌++◌, ◌+◌, ◌*◌, ◌^◌, ◌≤◌, ◌<◌, length, get_or};
ghost use Rattle.rules.specs.Listing.{decimal, minute_line, refused_line};
ghost use Rattle.rules.specs.Calls.{filled};
ghost use Rattle.theory_lists.specs.Writes.{Put};
ghost use Rattle.out_listing.specs.Text.{held_at, minute_lines, left_of, last_line, lines_of, first_line, text_from, Prints};
ghost use Rattle.out_listing.specs.Writer.{Adds};

// A text in the making: what is put next goes to the place `at`.
#[derive(Drop)]
struct Text<'a> {
    bytes: &'a mut [u8],
    at: usize,
    ghost within: { at ≤ length bytes.now },
}

impl Text<'_> {
    // One byte more.
    fn put(&mut self, b: u8)
        ensures { Adds self.old.bytes self.old.at (b ∷ []) self.new.at self.new.bytes }
    {
        if self.at < self.bytes.len() {
            self.bytes[self.at] = b;
            self.at += 1;
        }
    }

    // The decimal digits of v, the highest first.
    // Not write!: the clauses say each byte by decimal of rules, and what does not fit is left out, where write! would stop with an error.
    fn put_decimal(&mut self, v: u64)
        ensures { Adds self.old.bytes self.old.at (decimal v) self.new.at self.new.bytes }
    {
        if v >= 10 {
            self.put_decimal(v / 10);
        }
        self.put(b'0' + (v % 10) as u8);
    }

    // The number v and the byte after it.
    fn put_number(&mut self, v: u64, end: u8)
        ensures { Adds self.old.bytes self.old.at (decimal v ++ (end ∷ [])) self.new.at self.new.bytes }
    {
        self.put_decimal(v);
        self.put(end);
    }

    // The bytes of a word.
    fn put_bytes(&mut self, word: &[u8])
        ensures { Adds self.old.bytes self.old.at word.now self.new.at self.new.bytes }
    {
        for b in word {
            self.put(*b);
        }
    }

    // The line of train k in minute t, where the weight w is not 0.
    fn minute_line(&mut self, k: usize, t: usize, w: u64)
        ensures { Adds self.old.bytes self.old.at (minute_line k t w) self.new.at self.new.bytes }
    {
        if w != 0 {
            self.put_number(k as u64, b' ');
            self.put_number(t as u64, b' ');
            self.put_number(w, b'\n');
        }
    }

    // The lines of train k for the minutes with weight, up to minute `last`.
    // Train, last minute and weights stay beside each other here: `write` is named in docs and takes the last two so, and the train changes.
    fn minute_lines(&mut self, k: usize, last: usize, weights: &[u64])
        requires { (k < 8) × (last ≤ 719) }
        ensures { Adds self.old.bytes self.old.at (minute_lines weights.now k (last + 1)) self.new.at self.new.bytes }
    {
        for t in 0..last + 1 {
            self.minute_line(k, t, weight(weights, k, t));
        }
    }

    // The last line of train k.
    fn last_line(&mut self, k: usize, rest: u64)
        ensures { Adds self.old.bytes self.old.at (last_line k rest) self.new.at self.new.bytes }
    {
        self.put_number(k as u64, b' ');
        self.put_bytes(b"- ");
        self.put_number(rest, b'\n');
    }

    // The lines of train k.
    fn train_lines(&mut self, whole: u64, k: usize, last: usize, weights: &[u64])
        requires { (k < 8) × (last ≤ 719) }
        ensures { Adds self.old.bytes self.old.at (lines_of whole last weights.now k) self.new.at self.new.bytes }
    {
        self.minute_lines(k, last, weights);
        self.last_line(k, not_arrived(whole, k, last, weights));
    }

    // The first line.
    fn first_line(&mut self, whole: u64)
        ensures { Adds self.old.bytes self.old.at (first_line whole) self.new.at self.new.bytes }
    {
        self.put_bytes(b"total ");
        self.put_number(whole, b'\n');
    }
}

// The weight of train k in minute t, 0 past the end.
// words::at does the same, but this crate needs nothing else of the words of the runs, and its places are usize (no plainer).
fn weight(weights: &[u64], k: usize, t: usize) -> u64
    requires { (k < 8) × (t ≤ 719) }
    ensures { result ≡ held_at weights.now k t }
{
    weights.get(k * 720 + t).copied().unwrap_or(0)
}

// What is left of the whole weight when the weights of train k up to minute `last` are taken away.
fn not_arrived(whole: u64, k: usize, last: usize, weights: &[u64]) -> u64
    requires { (k < 8) × (last ≤ 719) }
    ensures { result ≡ left_of whole weights.now k (last + 1) }
{
    let mut rest = whole;
    for t in 0..last + 1 {
        rest = rest.saturating_sub(weight(weights, k, t));
    }
    rest
}

// All choices of n trains together weigh 100^n.
pub fn whole_weight(n: usize) -> u64
    requires { n ≤ 8 }
    ensures { result ≡ 100 ^ n }
{
    100u64.pow(n as u32)
}

// Writes the listing of `trains` trains up to minute `last` to the start of text, clears the rest, and returns the number of bytes.
pub fn write(trains: usize, last: usize, weights: &[u64], text: &mut [u8]) -> usize
    requires { (trains ≤ 8) × (last ≤ 719) }
    ensures put { Put (filled (length text.old) [] text.old) 0 (text_from trains last weights.now) result text.new }
    ensures prints { Prints trains last weights.now text.old result text.new }
{
    text.fill(0);
    let mut out = Text { bytes: text, at: 0 };
    let whole = whole_weight(trains);
    out.first_line(whole);
    for k in 0..trains {
        out.train_lines(whole, k, last, weights);
    }
    out.at
}

// Writes the line of a refusal to the start of text, and returns the number of bytes.
// Three numbers, as an answer of the C interface has them and refused_line of rules takes them: an enum of faults would ask more of the caller.
pub fn refused_line(number: u64, file: u64, place: u64, text: &mut [u8]) -> usize
    ensures { Put text.old 0 (refused_line (record { number = number; file = file; place = place })) result text.new }
{
    let mut out = Text { bytes: text, at: 0 };
    out.put_bytes(b"refused ");
    out.put_number(number, b' ');
    out.put_number(file, b' ');
    out.put_number(place, b'\n');
    out.at
}
