// The field viewer of the planning desk: it holds a file's bytes and its place and gives one field after another. It judges no
// tag and no length.
#![tactic(auto)]

ghost use Rattle.std.specs.Prelude.{◌≡◌};
ghost use Rattle.rules.specs.Viewer.{viewed, next_place};
ghost use Rattle.file_fields.specs.Fields.{field_of};
ghost use Rattle.file_viewer.specs.Viewing.{place_after, viewing};

use file_fields::Field;

#[derive(Clone, Copy)]
pub struct Viewer<'a> {
    pub bytes: &'a [u8],
    pub place: usize,
}

// What a viewer gave, and the place at which it stood.
#[derive(Clone, Copy)]
pub struct Viewing {
    pub place: usize,
    pub field: Field,
}

// The place after what was given: past a field; at the end and with refusal 1 it stays.
fn place_after(place: usize, given: Field) -> usize
    ensures { result ≡ place_after place given }
{
    match given {
        Field::Whole { end, .. } => end,
        Field::Ended | Field::Overrun => place,
    }
}

impl<'a> Viewer<'a> {
    // A viewer of a file's bytes at a place; 0 is the file's start.
    pub fn at(bytes: &'a [u8], place: usize) -> Self
        ensures { (result.bytes ≡ bytes.entry) × (result.place ≡ place) }
    {
        Viewer { bytes, place }
    }

    // Gives what stands at the viewer's place, and goes past it if it is a field.
    pub fn give(&mut self) -> Field
        ensures { (result ≡ field_of (viewed self.old.bytes.now self.old.place))
            × (self.new.bytes ≡ self.old.bytes)
            × (self.new.place ≡ next_place self.old.place (viewed self.old.bytes.now self.old.place)) }
    {
        let given = file_fields::field_at(self.bytes, self.place);
        self.place = place_after(self.place, given);
        given
    }
}

// What a viewer that starts at the file's start gives after it has given n times; n counts fields, not bytes.
pub fn nth(file: &[u8], n: usize) -> Viewing
    ensures { result ≡ viewing file.now n }
{
    let mut viewer = Viewer::at(file, 0);
    for _ in 0..n {
        viewer.give();
    }
    let place = viewer.place;
    let field = viewer.give();
    Viewing { place, field }
}
