// A call with the place for its answer.
use model::calls::{Answer, Call};

#[derive(Clone, Copy, PartialEq, Eq, Debug)]
pub struct Turn {
    pub call: Call,
    pub answer: Answer,
}
