// The reader of a line: the bytes left, and the place of the first of them.
ghost use Rattle.std.specs.Prelude.{◌≡◌, ◌+◌, ◌-◌, ◌^◌, ◌<◌, ◌≤◌, length};
ghost use Rattle.runfile.specs.Places.{ahead};

use crate::place::Place;

// What is left of a line, and its place: every offset and column up to the line's end can be counted.
#[derive(Clone, Copy)]
pub(crate) struct Reader<'a> {
    pub(crate) rest: &'a [u8],
    pub(crate) place: Place,
    ghost offsets: { place.at + length rest.now < 2 ^ 64 },
    ghost columns: { place.column + length rest.now < 2 ^ 64 },
}

impl<'a> Reader<'a> {
    // Goes on to the rest.
    pub(crate) fn go_to(&mut self, rest: &'a [u8])
        requires { length rest.now ≤ length self.old.rest.now }
        ensures rest { self.new.rest.now ≡ rest.now }
        ensures place { self.new.place ≡ ahead self.old.place (length self.old.rest.now - length rest.now) }
    {
        self.place = self.place.ahead(self.rest.len() - rest.len());
        self.rest = rest;
    }
}
