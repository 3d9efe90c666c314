// The memory of a line, got before the line is made.
ghost use Rattle.std.specs.Prelude.{◌≡◌, replicate, IfOk};
ghost use Rattle.model.specs.Model.{blank};

use super::session::Session;
use ready::queue::SESSIONS;
use std::alloc::{AllocError, Global};
use std::marker::Model;

// The sessions of a line that is not made yet, with memory for all the packets that can ever wait.
#[derive(Drop)]
pub struct Memory {
    pub(crate) sessions: Box<[Session; 32]>,
}

impl Model for Memory {
    ghost use Rattle.std.specs.Prelude.{◌≡◌, List, replicate};
    ghost use Rattle.model.specs.Model as M;

    ghost Value = { List M.Session };

    ghost view = { λ m. m.sessions.value };

    ghost invariant = { λ m. m.sessions.value ≡ replicate 32 M.blank };
}

// What a line is made of.
#[derive(Drop)]
pub struct Parts<R> {
    pub memory: Memory,
    pub rule: R,
}

impl Memory {
    // Want of memory is its only refusal, and no call on a line meets it later.
    pub fn get(heap: Global) -> Result<Memory, AllocError>
        ensures { IfOk result (λ m. m ≡ replicate 32 blank) }
    {
        // The records are gathered in a `Vec`: `array::try_from_fn`, which want of memory may cut short, takes several times
        // the array's size of the stack.
        let mut records = Vec::with_capacity(heap, SESSIONS)?;
        for _ in 0..SESSIONS {
            records.push_reserved(Session::new(heap)?);
        }
        let Ok(sessions) = <[Session; SESSIONS]>::try_from(records) else {
            unreachable!()
        };
        Ok(Memory {
            sessions: Box::new(heap, sessions)?,
        })
    }
}
