// What a file is: bytes, words of two bytes, and fields of a tag, a length and a body. Every read is total.
#![tactic(auto)]

pub mod limits;
pub mod refusals;

ghost use Rattle.std.specs.Prelude.{◌≡◌, ◌+◌, ◌*◌, ◌<◌, get_or};
ghost use Rattle.rules.specs.Files.{word};
ghost use Rattle.rules.specs.Viewer.{viewed};
ghost use Rattle.file_fields.specs.Fields.{field_of};

// What stands at a place of a file: a whole field with its tag, its body's length and where it ends; the file's end; or refusal 1.
// The paper's viewer gives one of these three (`View`, rules/specs/Viewer), so this does: `Ok(None)` for the file's end would say less than `Ended`.
#[derive(Clone, Copy)]
pub enum Field {
    Whole { tag: usize, size: usize, end: usize },
    Ended,
    Overrun,
}

// The byte at i, and 0 past the end.
pub fn byte(b: &[u8], i: usize) -> usize
    ensures { (result ≡ get_or b.now i 0) × (result < 256) }
{
    b.get(i).copied().map_or(0, usize::from)
}

// Two bytes from i on, the higher first, each 0 past the end.
pub fn word(b: &[u8], i: usize) -> usize
    ensures { (result ≡ word b.now i) × (result < 65536) }
{
    // Within the file i + 1 is a number, so the processor reads both bytes at once; `saturating_add` would keep it from that.
    if i < b.len() {
        byte(b, i) * 256 + byte(b, i + 1)
    } else {
        0
    }
}

// The field at a place; it judges no tag and no length.
pub fn field_at(file: &[u8], at: usize) -> Field
    ensures { result ≡ field_of (viewed file.now at) }
{
    if file.len() <= at {
        return Field::Ended;
    }
    if file.len() - at < 3 {
        return Field::Overrun;
    }
    let tag = byte(file, at);
    let size = word(file, at + 1);
    if file.len() - at - 3 < size {
        return Field::Overrun;
    }
    Field::Whole {
        tag,
        size,
        end: at + 3 + size,
    }
}
