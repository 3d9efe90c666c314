// Opening, closing and changing sessions in the book, and the time of a pick.
ghost use Rattle.std.specs.Prelude.{◌≡◌};
ghost use Rattle.model.specs.declared.calls.Call.TheVariants.{Open, Close, Change as Changing, Pick};
ghost use Rattle.model.specs.Answers.{said};
ghost use Rattle.model.specs.Model.{step};
ghost use Rattle.line.specs.Views.{after, told};

use super::book::Book;
use model::calls::{Change, Choice, Closing, Opening, Refusal};

impl Book {
    // Opens a session, or says why not.
    pub(crate) fn open(&mut self, c: Opening) -> Result<(), Refusal>
        ensures told { said result ≡ told self.old (Open c) }
        ensures after { self.new ≡ after self.old (Open c) }
    {
        let i = self.may_open(c)?;
        self.sessions[i].open_with(c.interval, c.places);
        self.time = c.time;
        Ok(())
    }

    // Closes a session, or says why not.
    pub(crate) fn close(&mut self, c: Closing) -> Result<(), Refusal>
        ensures told { said result ≡ told self.old (Close c) }
        ensures after { self.new ≡ after self.old (Close c) }
    {
        let i = self.may_close(c)?;
        let potential = self.potential(c.time);
        self.sessions[i].close_at(potential);
        self.time = c.time;
        Ok(())
    }

    // Changes a session's interval, or says why not.
    pub(crate) fn change(&mut self, c: Change) -> Result<(), Refusal>
        ensures told { said result ≡ told self.old (Changing c) }
        ensures after { self.new ≡ after self.old (Changing c) }
    {
        let i = self.may_change(c)?;
        let potential = self.potential(c.time);
        self.sessions[i].change_to(c.interval, potential, c.time);
        self.time = c.time;
        Ok(())
    }

    // Takes a pick from so many choices, or says why not: the book notes its time alone.
    pub(crate) fn pick(&mut self, choices: u64, c: Choice) -> Result<(), Refusal>
        ensures told { said result ≡ (step choices (λ s f. 0) self.old (Pick c)).answer }
        ensures after { self.new ≡ (step choices (λ s f. 0) self.old (Pick c)).state }
    {
        self.may_pick(choices, c)?;
        self.time = c.time;
        Ok(())
    }
}
