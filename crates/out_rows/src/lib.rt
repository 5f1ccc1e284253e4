// The image of rows in lent bytes.
#![tactic(auto)]

ghost use Rattle.std.specs.Prelude.{◌≡◌, List, ◌+◌, ◌*◌, ◌/◌, ◌≤◌, length};
ghost use Rattle.std.proofs.lemmas.List.Edits.{sets};
ghost use Rattle.rules.specs.Lists.{each};
ghost use Rattle.rules.specs.Turns.{kind_of, number_of};
ghost use Rattle.rules.specs.Joint.{Entry};
ghost use Rattle.rules.specs.Calls.{filled, row_image};
ghost use Rattle.theory_codes.specs.Codes.{place_of};
ghost use Rattle.out_images.specs.Rows.{mark_bytes, cover_bytes, row_bytes, image_of_rows, Held};

// The kind and the number of the place with code p: a station, a track, the way out of the last station, or outside.
// A kind is a number here, since these are two bytes of the image (FORMATS.md): an enum would be built and turned back into its number at once.
fn kind_and_number(p: u64) -> (u8, u8)
    ensures { result ≡ (kind_of (place_of p), number_of (place_of p)) }
{
    match p {
        0..=23 => (1, p as u8),
        24..=63 => (2, (p - 24) as u8),
        64 => (3, 0),
        _ => (0, 0),
    }
}

// The eight bytes of the state s: train, standing or blocking, place, minute.
fn mark_bytes(s: u64) -> [u8; 8]
    ensures { result ≡ mark_bytes s }
{
    let (kind, number) = kind_and_number(s / 4096 % 128);
    let [high, low] = ((s % 2048) as u16).to_be_bytes();
    [
        (s / 524288 % 256) as u8,
        (s / 2048 % 2 + 1) as u8,
        kind,
        number,
        high,
        low,
        0,
        0,
    ]
}

// The sets of n trains of the packed cover c, and 0 for the trains that are not there.
fn cover_bytes(n: usize, c: u64) -> [u8; 8]
    ensures { result ≡ cover_bytes n c }
{
    let mut sets = c.to_le_bytes();
    sets[n.min(8)..].fill(0);
    sets
}

// The row of state s and cover c in 16 bytes.
fn put_row(out: &mut [u8], at: usize, n: usize, s: u64, c: u64)
    requires { at + 16 ≤ length out.old }
    ensures { out.new ≡ sets out.old at (row_bytes n s c) }
{
    out[at..at + 8].copy_from_slice(&mark_bytes(s));
    out[at + 8..at + 16].copy_from_slice(&cover_bytes(n, c));
}

// The rows of n trains, and 0 for the rows up to 1,024 that are not there.
pub fn put_rows(rows: &[u64], n: usize, out: &mut [u8])
    requires { (length rows.now ≤ 2048) × (16384 ≤ length out.old) }
    ensures out_after { out.new ≡ filled 16384 (image_of_rows n (length rows.now / 2) rows.now) out.old }
    ensures out_after_2 { (es : List Entry) → length es ≡ length rows.now / 2 → Held n es rows.now → out.new ≡ filled 16384 (each row_image es) out.old }
{
    out_images::clear(out, 16384);
    for i in 0..rows.len() / 2 {
        put_row(out, i * 16, n, rows[i * 2], rows[i * 2 + 1]);
    }
}
