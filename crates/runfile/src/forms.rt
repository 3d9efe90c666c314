// The forms of a run file: what makes the line, and the calls on it; and the reader of a line.
ghost use Rattle.grammar.specs.Reader.{body, form, read_from};
ghost use Rattle.runfile.specs.Forming.{Ends, Leaves, answer_of, form_of};
ghost use Rattle.runfile.specs.Kinds.{row_of};
ghost use Rattle.runfile.specs.Met.{met};
ghost use Rattle.runfile.specs.Reads.{Inside, Moves, read_of};
ghost use Rattle.std.specs.Prelude.{◌≡◌, length, drop};

use crate::faults::FormFault;
use crate::place::{Guard, Place};
use crate::reader::Reader;
use crate::tokens::{as_end, as_kind, as_opening};
use crate::words::Kind;
use model::calls::{Arrival, Call, Change, Choice, Closing, Opening};

// A form, its fields being numbers that nothing but the grammar has tested: makes the line, for packets of at most so
// many bytes, or calls on it.
#[derive(Clone, Copy, PartialEq, Eq, Debug)]
pub enum Form {
    Link { longest: u64 },
    Call(Call),
}

impl<'a> Reader<'a> {
    // Reads what follows the word of a form of this kind.
    fn body(&mut self, kind: Kind) -> Result<Form, FormFault>
        ensures read { read_of met form_of result self.new ≡ body (row_of kind) self.old.place.column self.old.rest.now }
        ensures moves { Moves met self.old result self.new }
    {
        match kind {
            Kind::Link => {
                let [longest] = self.values::<1>(kind)?;
                Ok(Form::Link { longest })
            }
            Kind::Open => {
                let [time, session, interval, places] = self.values::<4>(kind)?;
                Ok(Form::Call(Call::Open(Opening {
                    session,
                    interval,
                    places,
                    time,
                })))
            }
            Kind::Close => {
                let [time, session] = self.values::<2>(kind)?;
                Ok(Form::Call(Call::Close(Closing { session, time })))
            }
            Kind::Change => {
                let [time, session, interval] = self.values::<3>(kind)?;
                Ok(Form::Call(Call::Change(Change {
                    session,
                    interval,
                    time,
                })))
            }
            Kind::Pick => {
                let [time, number] = self.values::<2>(kind)?;
                Ok(Form::Call(Call::Pick(Choice { number, time })))
            }
            Kind::Arrive => {
                let [time, session, bytes] = self.values::<3>(kind)?;
                Ok(Form::Call(Call::Arrive(Arrival {
                    session,
                    bytes,
                    time,
                })))
            }
            Kind::Depart => {
                let [] = self.values::<0>(kind)?;
                Ok(Form::Call(Call::Depart))
            }
        }
    }

    // Reads a form and the line's end.
    fn form(&mut self) -> Result<Form, FormFault>
        ensures read { read_of met form_of result self.new ≡ form self.old.place.column self.old.rest.now }
        ensures moves { Moves met self.old result self.new }
    {
        self.expect(as_opening)?;
        let kind = self.expect(as_kind)?;
        let form = self.body(kind)?;
        self.expect(as_end)?;
        Ok(form)
    }
}

// Reads a form and the line's end, and moves the place as far as the reader went, whatever it met there.
fn read_line(text: &[u8], place: &mut Place) -> Result<Form, FormFault>
    requires { Inside (length text.now) place.old }
    ensures read { answer_of result ≡ read_from place.old.column (drop place.old.at text.now) }
    ensures ends { Ends (length text.now) place.old result place.new }
{
    let mut reader = Reader {
        rest: &text[place.at..],
        place: *place,
    };
    let form = reader.form();
    *place = reader.place;
    form
}

// Reads the form of the line that begins at the place and ends with the text, and leaves the place at the end; where
// there is a fault, the place is put back.
pub fn read_form(text: &[u8], place: &mut Place) -> Result<Form, FormFault>
    requires { Inside (length text.now) place.old }
    ensures read { answer_of result ≡ read_from place.old.column (drop place.old.at text.now) }
    ensures leaves { Leaves (length text.now) place.old result place.new }
{
    let back = Some(*place);
    let mut guard = Guard { place, back };
    let form = read_line(text, guard.place)?;
    guard.back = None;
    Ok(form)
}
