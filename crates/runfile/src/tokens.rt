// What a token is taken for, or the fault that it is; and the reader of the next one.
ghost use Rattle.std.specs.Prelude.{◌≡◌, length, IfOk, IfSome};
ghost use Rattle.grammar.specs.Faults.{no_field, no_word};
ghost use Rattle.grammar.specs.Forms.{table};
ghost use Rattle.grammar.specs.Reader.{as_closing as closing, as_end as ending, as_number as number, as_opening as opening, as_word, row_in};
ghost use Rattle.grammar.specs.Slots.{free_place};
ghost use Rattle.runfile.specs.Filling.{IsFree};
ghost use Rattle.runfile.specs.Kinds.{row_of};
ghost use Rattle.runfile.specs.Met.{met};
ghost use Rattle.runfile.specs.Reads.{Moves};
ghost use Rattle.runfile.specs.Scanned.{token_of};
ghost use Rattle.runfile.specs.Taking.{Takes, taken_of};

use crate::faults::{Fault, FormFault};
use crate::reader::Reader;
use crate::scanner::Token;
use crate::words::{Kind, kind_of, slot_of};

// An opening bracket.
pub(crate) fn as_opening(token: Option<Token>) -> Result<(), Fault>
    ensures { taken_of (λ u. u) result ≡ opening (token_of token.entry) }
{
    matches!(token, Some(Token::Open))
        .then_some(())
        .ok_or(Fault::Bracket)
}

// A closing bracket.
pub(crate) fn as_closing(token: Option<Token>) -> Result<(), Fault>
    ensures { taken_of (λ u. u) result ≡ closing (token_of token.entry) }
{
    matches!(token, Some(Token::Close))
        .then_some(())
        .ok_or(Fault::Bracket)
}

// The line's end.
pub(crate) fn as_end(token: Option<Token>) -> Result<(), Fault>
    ensures { taken_of (λ u. u) result ≡ ending (token_of token.entry) }
{
    token.is_none().then_some(()).ok_or(Fault::Bracket)
}

// A number.
pub(crate) fn as_number(token: Option<Token>) -> Result<u64, Fault>
    ensures { taken_of (λ v. v) result ≡ number (token_of token.entry) }
{
    match token {
        Some(Token::Number(digits)) => Ok(digits.value()),
        _ => Err(Fault::Number),
    }
}

// The word of a form.
pub(crate) fn as_kind(token: Option<Token>) -> Result<Kind, Fault>
    ensures { taken_of row_of result ≡ as_word no_word (row_in table) (token_of token.entry) }
{
    let Some(Token::Word(word)) = token else {
        return Err(Fault::Word);
    };
    kind_of(word).ok_or(Fault::Word)
}

// The slot of this word, if it is a field of the kind and has not come yet.
fn free_slot(kind: Kind, slots: &[Option<u64>], word: &str) -> Option<usize>
    requires { length slots.now ≡ length (row_of kind).names }
    ensures place { result ≡ free_place (row_of kind).names slots.now word.now }
    ensures free { IfSome result (IsFree slots.now) }
{
    slot_of(kind, word).filter(|slot| slots[*slot].is_none())
}

// The word of a field of the kind that has not come yet, as its slot.
pub(crate) fn as_field(
    kind: Kind,
    slots: &[Option<u64>],
    token: Option<Token>,
) -> Result<usize, Fault>
    requires { length slots.now ≡ length (row_of kind).names }
    ensures slot { taken_of (λ i. i) result ≡ as_word no_field (free_place (row_of kind).names slots.now) (token_of token.entry) }
    ensures free { IfOk result (IsFree slots.now) }
{
    let Some(Token::Word(word)) = token else {
        return Err(Fault::Word);
    };
    free_slot(kind, slots, word).ok_or(Fault::Field)
}

impl<'a> Reader<'a> {
    // Reads the next token for what it is taken for, or tells the fault that it is, at its place.
    pub(crate) fn expect<T, F: FnOnce(Option<Token<'a>>) -> Result<T, Fault>>(
        &mut self,
        choice: F,
    ) -> Result<T, FormFault>
        requires { F.IsAlwaysCallable choice }
        ensures taken { Takes (F.post choice) self.old result self.new }
        ensures moves { Moves met self.old result self.new }
    {
        let (token, place) = self.token()?;
        choice(token).map_err(|fault| FormFault::Wrong(fault, place))
    }
}
