// One line of a run: it is read, called, and answered on the page.
ghost use Rattle.std.specs.Prelude.{◌≡◌, ◌+◌, ◌≤◌, length};
ghost use Rattle.grammar.specs.Reader.{read};
ghost use Rattle.page.specs.Page.{HasRoom, laid};
ghost use Rattle.run.specs.Faults.{Short, outcome_text, told, told_text};
ghost use Rattle.run.specs.Stages.{stage_line, stage_next};

use super::faults::RunFault;
use super::study::Study;
use answers::lines::{put_answer, put_fault};
use model::calls::Answer;
use page::Page;
use ready::queue::Ready;
use rules::rule::Rule;
use runfile::forms::read_form;
use runfile::place::Place;

// The answer to a line of this number, or its fault.
pub(crate) fn answer_line<R: Rule + Drop, Q: Ready + Drop>(
    study: &mut Study<R, Q>,
    line: &[u8],
    number: usize,
) -> Result<Answer, RunFault>
    requires short { length line.now ≤ 65536 }
    requires few { number ≤ 65536 }
    ensures told { outcome_text result ≡ stage_line R.Rule.acts study.old number (read line.now) }
    ensures after { study.new ≡ stage_next R.Rule.acts study.old (read line.now) }
    ensures short { Short result }
{
    let first = Place::start_of_line(0, number);
    let mut place = first;
    let form = read_form(line, &mut place)?;
    study.answer(form).ok_or(RunFault::Order(first))
}

// Lays the fault of a run.
pub(crate) fn put_run_fault(page: &mut Page<'_>, fault: RunFault)
    requires { HasRoom page.old (length (told_text (told fault))) }
    ensures { page.new ≡ laid page.old (told_text (told fault)) }
{
    put_fault(page, fault.report());
}

// Lays the answer to a line, or its fault.
pub(crate) fn put_outcome(page: &mut Page<'_>, outcome: Result<Answer, RunFault>)
    requires room { HasRoom page.old 192 }
    requires short { Short outcome }
    ensures near { page.new.end ≤ page.old.end + 168 }
    ensures text { page.new ≡ laid page.old (outcome_text outcome) }
{
    match outcome {
        Ok(answer) => put_answer(page, answer),
        Err(fault) => put_run_fault(page, fault),
    }
}
