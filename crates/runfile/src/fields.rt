// The fields of a form, in any order and each once: every value goes into the slot of its name.
ghost use Rattle.std.specs.Prelude.{◌≡◌, suc, length, IfOk};
ghost use Rattle.grammar.specs.Reader.{fields};
ghost use Rattle.grammar.specs.Slots.{frees, slot_fields};
ghost use Rattle.runfile.specs.Filling.{filled_field};
ghost use Rattle.runfile.specs.Kinds.{row_of};
ghost use Rattle.runfile.specs.Met.{met};
ghost use Rattle.runfile.specs.Places.{Along};
ghost use Rattle.runfile.specs.Reads.{Moves, line_end, read_of};

use crate::faults::{Fault, FormFault};
use crate::place::Place;
use crate::reader::Reader;
use crate::scanner::Token;
use crate::tokens::{as_closing, as_field, as_number};
use crate::words::Kind;

// (A struct of a kind and its slots would be generic in their number, and a closure over it would have to repeat what
// `as_field` ensures: the two go side by side.)
impl<'a> Reader<'a> {
    // Reads a field behind its opening bracket into its slot, which has to be free.
    fn field(&mut self, kind: Kind, slots: &mut [Option<u64>]) -> Result<(), FormFault>
        requires { length slots.old ≡ length (row_of kind).names }
        ensures read { read_of met (λ _. slots.new) result self.new ≡ filled_field (row_of kind).names slots.old self.old.place.column self.old.rest.now }
        ensures moves { Moves met self.old result self.new }
        ensures fewer { IfOk result (λ _. suc (frees slots.new) ≡ frees slots.old) }
    {
        let slot = self.expect(|token| as_field(kind, slots, token))?;
        let value = self.expect(as_number)?;
        self.expect(as_closing)?;
        slots[slot] = Some(value);
        Ok(())
    }

    // Reads the fields of a kind into its slots, up to the form's closing bracket, and tells where that stands.
    fn fields(&mut self, kind: Kind, slots: &mut [Option<u64>]) -> Result<Place, FormFault>
        requires { length slots.old ≡ length (row_of kind).names }
        ensures read { read_of met (λ end. (slots.new, end.column)) result self.new ≡ slot_fields (suc (frees slots.old)) (row_of kind).names slots.old self.old.place.column self.old.rest.now }
        ensures moves { Moves met self.old result self.new }
        ensures closed { IfOk result (Along (line_end self.old) self.old.place) }
    {
        loop {
            let (token, place) = self.token()?;
            match token {
                Some(Token::Open) => self.field(kind, slots)?,
                Some(Token::Close) => return Ok(place),
                _ => return Err(FormFault::Wrong(Fault::Bracket, place)),
            }
        }
    }

    // Reads the values of a kind's fields, in the order of its names.
    pub(crate) fn values<const N: usize>(&mut self, kind: Kind) -> Result<[u64; N], FormFault>
        requires { N ≡ length (row_of kind).names }
        ensures read { read_of met (λ vs. vs) result self.new ≡ fields (suc (length (row_of kind).names)) (row_of kind).names self.old.place.column self.old.rest.now }
        ensures moves { Moves met self.old result self.new }
    {
        let mut slots = [None; N];
        let end = self.fields(kind, &mut slots)?;
        slots
            .try_map(|slot| slot.ok_or(Fault::Field))
            .map_err(|fault| FormFault::Wrong(fault, end))
    }
}
