// The book of a line: everything but its rule and its ready queues.
ghost use Rattle.std.specs.Prelude.{◌≡◌, ◌<◌};
ghost use Rattle.model.specs.Model.{at, finish_key, made, start_key};
ghost use Rattle.model.specs.Promises.{Proper};
ghost use Rattle.line.specs.Needed.{Bounded};
ghost use Rattle.line.specs.Records.{wire_of};

use super::memory::Memory;
use super::session::Session;
use super::wire::Sending;
use ready::key::Key;
use std::marker::Model;

// The sessions stand behind a box: what is moved as a line is made stays small, and so does the stack of a run.
#[derive(Drop)]
pub struct Book {
    pub(crate) longest: u64,
    pub(crate) time: u64,
    pub(crate) wire: Option<Sending>,
    pub(crate) sessions: Box<[Session; 32]>,
}

impl Model for Book {
    ghost use Rattle.model.specs.Model as M;

    ghost Value = { M.State };

    ghost use Rattle.model.specs.Invariants.{Steady};
    ghost use Rattle.line.specs.Views.{state_of};

    ghost view = { state_of };

    ghost invariant = { λ b. Steady (state_of b) };
}

impl Book {
    // The book of a new line.
    pub(crate) fn new(longest: u64, memory: Memory) -> Book
        requires { Proper (record { longest = longest }) }
        ensures { result ≡ made (record { longest = longest }) }
    {
        Book {
            longest,
            time: 0,
            wire: None,
            sessions: memory.sessions,
        }
    }

    // What is on the wire.
    pub(crate) fn wire(&self) -> Option<Sending>
        ensures { wire_of result ≡ self.now.wire }
    {
        self.wire
    }

    // One session's record.
    pub(crate) fn at(&self, i: usize) -> &Session
        requires { i < 32 }
        ensures is { result.now ≡ at self.now i }
        ensures bounded { Bounded result.now }
    {
        &self.sessions[i]
    }
}
