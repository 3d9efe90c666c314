// Cuts a text into lines.
ghost use Rattle.std.specs.Prelude.{◌≡◌, ◌≤◌, length, drop};
ghost use Rattle.std.specs.Iterator.{at_most};
ghost use Rattle.grammar.specs.Lines.{line_length};
ghost use Rattle.runfile.specs.Cutting.{CutsLine, EndsFirst};

// The byte that ends a line.
pub const LINE_END: u8 = b'\n';

// The first line end.
fn first_end(text: &[u8]) -> Option<usize>
    ensures { EndsFirst text.now result }
{
    text.iter().position(|b| *b == LINE_END)
}

// How many bytes stand before the first line end, or in all.
pub fn line_len(text: &[u8]) -> usize
    ensures value { result ≡ line_length text.now }
    ensures bound { result ≤ length text.now }
{
    match first_end(text) {
        Some(i) => i,
        None => text.len(),
    }
}

// The bytes behind the first one.
fn behind_first(bytes: &[u8]) -> &[u8]
    ensures { result.now ≡ drop 1 bytes.now }
{
    match bytes {
        [_, rest @ ..] => rest,
        [] => bytes,
    }
}

// The lines of a text, without their ends, one after another. Not std's `split_inclusive`: it leaves the ends on, and its
// contract does not name the pieces.
#[derive(Clone, Copy)]
pub struct Lines<'a> {
    rest: &'a [u8],
}

impl<'a> Lines<'a> {
    pub fn of(text: &'a [u8]) -> Lines<'a>
        ensures { result ≡ record { rest = text.entry } }
    {
        Lines { rest: text }
    }
}

impl<'a> Iterator for Lines<'a> {
    type Item = &'a [u8];

    ghost next_gives = { λ s r t. CutsLine s.rest.now r t.rest.now };

    ghost remaining = { λ s. at_most (length s.rest.now) };

    fn next(&mut self) -> Option<&'a [u8]> {
        if self.rest.is_empty() {
            return None;
        }
        let (line, behind) = self.rest.split_at(line_len(self.rest));
        self.rest = behind_first(behind);
        Some(line)
    }
}
