// A ready queue as a flat table.
ghost use Rattle.std.specs.Prelude.{◌≡◌, length};
ghost use Rattle.std.proofs.Common.{rules, arith};

use super::entry::{Entry, entry_of, lesser};
use super::key::Key;
use super::queue::{NoSession, Ready, known};

// A put costs one write, a least a walk over all sessions.
#[derive(Drop)]
pub struct Table {
    slots: [Option<Key>; 32],
    ghost full: { length slots ≡ 32 },
}

impl Ready for Table {
    ghost keys = { λ q. q.slots };

    ghost size = { first_of (Prim.search rules, Prim.grind (arith, Self.row.coded.inj)) };

    fn empty() -> Table {
        Table { slots: [None; 32] }
    }

    fn set(&mut self, session: usize, key: Option<Key>) -> Result<(), NoSession> {
        known(session)?;
        self.slots[session] = key;
        Ok(())
    }

    fn least(&self) -> Option<Entry> {
        self.slots.iter().enumerate().fold(
            None,
            |best, (session, key)| lesser(best, entry_of(session, *key)),
        )
    }
}
