// The faults of a run: the reader's whole, and the run's own, each with its place.
ghost use Rattle.std.specs.Prelude.{◌≡◌};
ghost use Rattle.run.specs.Faults.{told};
ghost use Rattle.run.specs.declared.faults.RunFault.TheVariants.{Form};

use answers::lines::Fault;
use runfile::faults::FormFault;
use runfile::place::Place;

// What is wrong with a line or with the whole: no form, a form out of order, a page without room, a text too long.
#[derive(Clone, Copy, PartialEq, Eq, Debug)]
pub enum RunFault {
    Form(FormFault),
    Order(Place),
    Page(Place),
    Text,
}

impl From<FormFault> for RunFault {
    ghost from_gives = { λ e r. r ≡ Form e };

    fn from(e: FormFault) -> RunFault {
        RunFault::Form(e)
    }
}

// What is told of a fault that was met at a place.
fn met_at(number: u32, word: &str, place: Place) -> Fault<'_>
    ensures { result ≡ record { number = number; word = word.entry; line = place.line; column = place.column } }
{
    Fault {
        number,
        word,
        line: place.line,
        column: place.column,
    }
}

impl RunFault {
    // What a report tells of it.
    pub fn report(self) -> Fault<'static>
        ensures number { result.number ≡ (told self).number }
        ensures word { result.word.now ≡ (told self).word }
        ensures line { result.line ≡ (told self).line }
        ensures column { result.column ≡ (told self).column }
    {
        match self {
            RunFault::Form(fault) => met_at(fault.number(), fault.word(), fault.place()),
            RunFault::Order(place) => met_at(25, "order", place),
            RunFault::Page(place) => met_at(26, "page", place),
            RunFault::Text => Fault {
                number: 27,
                word: "text",
                line: 0,
                column: 0,
            },
        }
    }
}
