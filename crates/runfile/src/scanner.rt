// The scanner: decides by the first byte what token begins, and goes on to the rest.
ghost use Rattle.std.specs.Prelude.{◌≡◌, ◌≤◌, length, IfOk};
ghost use Rattle.grammar.specs.Bytes.{run_length};
ghost use Rattle.grammar.specs.Reader.{token};
ghost use Rattle.runfile.specs.Met.{scan_met};
ghost use Rattle.runfile.specs.Places.{Along};
ghost use Rattle.runfile.specs.Reads.{Moves, line_end, read_of};
ghost use Rattle.runfile.specs.Scanned.{begun, begun_at, found_of};

use crate::faults::ScanFault;
use crate::numbers::Digits;
use crate::place::Place;
use crate::reader::Reader;
use std::str::from_utf8_unchecked;

// The blank, which may stand around tokens.
const BLANK: u8 = b' ';

// How many digits a number has at most.
const MOST_DIGITS: usize = 13;

// A token: a bracket, a word, or the digits of a number.
#[derive(Clone, Copy)]
pub(crate) enum Token<'a> {
    Open,
    Close,
    Word(&'a str),
    Number(Digits<'a>),
}

// How many bytes at the front lie between `low` and `high`.
fn run_len(bytes: &[u8], low: u8, high: u8) -> usize
    ensures value { result ≡ run_length low high bytes.now }
    ensures bound { result ≤ length bytes.now }
{
    bytes
        .iter()
        .take_while(|b| (low..=high).contains(*b))
        .count()
}

// How many blanks are first.
fn blanks(bytes: &[u8]) -> usize
    ensures value { result ≡ run_length 32 32 bytes.now }
    ensures bound { result ≤ length bytes.now }
{
    run_len(bytes, BLANK, BLANK)
}

impl<'a> Reader<'a> {
    // The token that the first byte begins, if there is one.
    fn begin(&mut self) -> Result<Option<Token<'a>>, ScanFault>
        ensures read { read_of scan_met (begun_at self.old.place.column) result self.new ≡ begun self.old.place.column self.old.rest.now }
        ensures moves { Moves scan_met self.old result self.new }
    {
        let bytes = self.rest;
        match bytes {
            [] => Ok(None),
            [b'(', rest @ ..] => {
                self.go_to(rest);
                Ok(Some(Token::Open))
            }
            [b')', rest @ ..] => {
                self.go_to(rest);
                Ok(Some(Token::Close))
            }
            [b'a'..=b'z', ..] => {
                let (word, rest) = bytes.split_at(run_len(bytes, b'a', b'z'));
                self.go_to(rest);
                // Letters are text: that is proved, and nothing has to test it again.
                Ok(Some(Token::Word(unsafe { from_utf8_unchecked(word) })))
            }
            [b'0'..=b'9', ..] => {
                let n = run_len(bytes, b'0', b'9');
                if n > MOST_DIGITS {
                    return Err(ScanFault::Long(self.place));
                }
                let (digits, rest) = bytes.split_at(n);
                self.go_to(rest);
                Ok(Some(Token::Number(Digits { bytes: digits })))
            }
            _ => Err(ScanFault::Foreign(self.place)),
        }
    }

    // The first token behind blanks, if the line has one left, and its place.
    pub(crate) fn token(&mut self) -> Result<(Option<Token<'a>>, Place), ScanFault>
        ensures read { read_of scan_met found_of result self.new ≡ token self.old.place.column self.old.rest.now }
        ensures moves { Moves scan_met self.old result self.new }
        ensures found { IfOk result (λ f. Along (line_end self.old) self.old.place f.1) }
    {
        // The reader moves once: a copy of it goes on, first to the token and then behind it.
        let mut on = *self;
        let n = blanks(self.rest);
        on.go_to(&self.rest[n..]);
        let place = on.place;
        let token = on.begin()?;
        *self = on;
        Ok((token, place))
    }
}
