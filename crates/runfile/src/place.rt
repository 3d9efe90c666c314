// Where the reader stands, and the guard that puts it back.
ghost use Rattle.std.specs.Prelude.{◌≡◌, ◌+◌, ◌^◌, ◌<◌, unwrap_or};
ghost use Rattle.runfile.specs.Places.{ahead};

// A place in the text that is read: its offset, and its line and column, both counted from 1.
#[derive(Clone, Copy, PartialEq, Eq, Debug)]
pub struct Place {
    pub at: usize,
    pub line: usize,
    pub column: usize,
}

impl Place {
    // The place of a line's first byte.
    pub fn start_of_line(at: usize, line: usize) -> Place
        ensures { result ≡ record { at = at; line = line; column = 1 } }
    {
        Place {
            at,
            line,
            column: 1,
        }
    }

    // The place `n` bytes on in the same line.
    pub(crate) fn ahead(self, n: usize) -> Place
        requires { (self.at + n < 2 ^ 64) × (self.column + n < 2 ^ 64) }
        ensures { result ≡ ahead self n }
    {
        Place {
            at: self.at + n,
            line: self.line,
            column: self.column + n,
        }
    }
}

// Puts the place back to the one that it holds when it goes: a line that is refused leaves the place where it began,
// whichever way its reader returns. Once the form was kept there is none.
pub(crate) struct Guard<'a> {
    pub(crate) place: &'a mut Place,
    pub(crate) back: Option<Place>,
}

impl Drop for Guard<'_> {
    fn drop(self)
        ensures { self.exit.0.now ≡ unwrap_or self.entry.back self.entry.place.now }
    {
        let Guard { place, back } = self;
        *place = back.unwrap_or(*place);
    }
}
