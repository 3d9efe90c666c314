// The stamps of the heads that wait, each kind in a ready queue.
ghost use Rattle.std.specs.Prelude.{◌≡◌, ◌<◌, replicate, None, slice_set};
ghost use Rattle.ready.specs.Least.{least};
ghost use Rattle.model.specs.Model.{at, finish_key, start_key};
ghost use Rattle.line.specs.Sound.{Stamps, both};

use super::book::Book;
use ready::entry::Entry;
use ready::queue::{Ready, set_key};
use std::marker::Model;

// One queue has the heads' finishes, the other their starts.
#[derive(Drop)]
pub(crate) struct Heads<Q: Ready> {
    finishes: Q,
    starts: Q,
}

impl<Q: Ready> Model for Heads<Q> {
    ghost Value = { Stamps };

    ghost view = { λ h. record { finishes = Q.Ready.keys h.finishes; starts = Q.Ready.keys h.starts } };
}

impl<Q: Ready + Drop> Heads<Q> {
    // No session waits.
    pub(crate) fn new() -> Heads<Q>
        ensures { result ≡ record { finishes = replicate 32 None; starts = replicate 32 None } }
    {
        Heads {
            finishes: Q::empty(),
            starts: Q::empty(),
        }
    }

    // The stamps of a session's head are set anew.
    pub(crate) fn rekey(&mut self, i: usize, book: &Book)
        requires { i < 32 }
        ensures finishes { self.new.finishes ≡ slice_set self.old.finishes i (finish_key (at book.now i)) }
        ensures starts { self.new.starts ≡ slice_set self.old.starts i (start_key (at book.now i)) }
    {
        let s = book.at(i);
        set_key(&mut self.finishes, i, s.finish_key());
        set_key(&mut self.starts, i, s.start_key());
    }

    // The least finish and the least start, if a session waits.
    pub(crate) fn least(&self) -> Option<(Entry, Entry)>
        ensures { result ≡ both (least self.now.finishes) (least self.now.starts) }
    {
        let first = self.finishes.least()?;
        Some((first, self.starts.least()?))
    }
}
