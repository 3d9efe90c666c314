// Lines that are read, and lines that are not.
ghost use Rattle.std.specs.Prelude.{◌≡◌, ◌<◌, length};
ghost use Rattle.grammar.specs.Reader.{read as read_line};
ghost use Rattle.runfile.specs.Forming.{answer_of};

use model::calls::{Call, Opening};
use runfile::faults::FormFault;
use runfile::forms::{Form, read_form};
use runfile::lines::line_len;
use runfile::place::Place;
use std::process::Abort;
use std::test::Fail;

// The form of a line that stands at the start of line 7.
fn read(line: &[u8]) -> Result<Form, FormFault>
    requires { length line.now < 100 }
    ensures { answer_of result ≡ read_line line.now }
{
    read_form(line, &mut Place::start_of_line(0, 7))
}

// The line is refused with this number at this column.
fn refused(rt: &impl Abort, line: &[u8], number: u32, column: usize) -> Result<(), Fail>
    requires line { length line.now < 100 }
    requires column { 0 < column }
{
    let Err(fault) = read(line) else {
        return Err(Fail::new("a form was read"));
    };
    assert_eq!(rt; fault.number(), number);
    assert_eq!(rt;
        fault.place(),
        Place {
            at: column - 1,
            line: 7,
            column
        }
    );
    Ok(())
}

#[test]
fn fields_come_in_any_order(rt: HostRuntime) {
    let form = read(b"( open(places 4)(at0) (interval 0002)(session 31)) ");
    let opening = Opening {
        session: 31,
        interval: 2,
        places: 4,
        time: 0,
    };
    assert_eq!(rt; form, Ok(Form::Call(Call::Open(opening))));
}

#[test]
fn faults_have_their_column(rt: HostRuntime) -> Result<(), Fail> {
    refused(&rt, b"", 21, 1)?;
    refused(&rt, b"(link\t(longest 1))", 21, 6)?;
    refused(&rt, b"(arrow)", 22, 2)?;
    refused(&rt, b"(link (longest 12345678901234))", 23, 16)?;
    refused(&rt, b"(close (at 1) (at 2))", 24, 16)?;
    refused(&rt, b"(close (at 1))", 24, 14)
}

#[test]
fn a_line_ends_before_its_end(rt: HostRuntime) {
    assert_eq!(rt; line_len(b"(depart)\n()"), 8);
    assert_eq!(rt; line_len(b"()"), 2);
}
