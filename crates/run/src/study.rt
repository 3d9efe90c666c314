// A study: no line yet, with what it will be made of, or a line; and what a form of a run file comes to on it.
use line::lined::{Line, may_make};
use line::memory::Parts;
use model::calls::{Answer, Call};
use ready::queue::Ready;
use rules::rule::Rule;
use runfile::forms::Form;
use std::marker::Model;

// How far a study has come.
#[derive(Drop)]
pub(crate) enum Phase<R: Rule + Drop, Q: Ready + Drop> {
    Unlinked(Parts<R>),
    Linked(Line<R, Q>),
}

// The phase is taken out of it only while a link is tried, since a line is made of the parts themselves.
#[derive(Drop)]
pub struct Study<R: Rule + Drop, Q: Ready + Drop> {
    phase: Option<Phase<R, Q>>,
}

impl<R: Rule + Drop, Q: Ready + Drop> Model for Study<R, Q> {
    ghost use Rattle.run.specs.Stages.{Stage};

    ghost Value = { Stage R };

    ghost use Rattle.run.specs.Studies.{phase_stage, IsThere};

    ghost view = { λ s. phase_stage s.phase };

    ghost invariant = { λ s. IsThere s.phase };
}

impl<R: Rule + Drop, Q: Ready + Drop> Study<R, Q> {
    ghost use Rattle.runfile.specs.Forming.{form_of};
    ghost use Rattle.run.specs.Orders.{call as calls, make as makes, order_of};
    ghost use Rattle.run.specs.Replies.{reply_of};
    ghost use Rattle.run.specs.Stages.{stage_after, stage_reply, unlinked};
    ghost use Rattle.std.specs.Prelude.{◌≡◌};

    // A study with no line yet.
    pub(crate) fn new(parts: Parts<R>) -> Study<R, Q>
        ensures { result ≡ unlinked parts.rule }
    {
        Study {
            phase: Some(Phase::Unlinked(parts)),
        }
    }

    // Makes the line, unless there is one. Its parts are moved only where it is made: a link that is refused or out of order
    // leaves them where they are.
    fn link(&mut self, longest: u64) -> Option<Answer>
        ensures told { reply_of result ≡ stage_reply R.Rule.acts self.old (makes longest) }
        ensures after { self.new ≡ stage_after R.Rule.acts self.old (makes longest) }
    {
        if let Some(Phase::Linked(_)) = &self.phase {
            return None;
        }
        if let Err(refusal) = may_make(longest) {
            return Some(Err(refusal));
        }
        match self.phase.take()? {
            Phase::Unlinked(parts) => {
                let (phase, answer) = match Line::make(longest, parts) {
                    Ok(line) => (Phase::Linked(line), Ok(None)),
                    Err((refusal, parts)) => (Phase::Unlinked(parts), Err(refusal)),
                };
                self.phase = Some(phase);
                Some(answer)
            }
            linked => {
                self.phase = Some(linked);
                None
            }
        }
    }

    // A call on the line, if there is one.
    fn call(&mut self, call: Call) -> Option<Answer>
        ensures told { reply_of result ≡ stage_reply R.Rule.acts self.old (calls call) }
        ensures after { self.new ≡ stage_after R.Rule.acts self.old (calls call) }
    {
        match &mut self.phase {
            Some(Phase::Linked(line)) => Some(line.serve(call)),
            _ => None,
        }
    }

    // What a form comes to, none where it is out of order.
    pub(crate) fn answer(&mut self, form: Form) -> Option<Answer>
        ensures told { reply_of result ≡ stage_reply R.Rule.acts self.old (order_of (form_of form)) }
        ensures after { self.new ≡ stage_after R.Rule.acts self.old (order_of (form_of form)) }
    {
        match form {
            Form::Link { longest } => self.link(longest),
            Form::Call(call) => self.call(call),
        }
    }
}
