// A line, whatever its rule and its ready queues. Each call is answered, and leaves the line and its rule, as the rules say.
ghost use Rattle.std.specs.Prelude.{◌≡◌, max, false, Some, None, Ok, Err, OnOk};
ghost use Rattle.model.specs.declared.calls.Call.TheVariants.{Open, Close, Change as Changing, Pick, Arrive, Depart};
ghost use Rattle.model.specs.Answers.{Left, answer_of, left, said};
ghost use Rattle.model.specs.Model.{made, make_refusal, resting};
ghost use Rattle.model.specs.Model.Wire.{idle, sending};
ghost use Rattle.model.specs.Promises.{Proper};
ghost use Rattle.line.specs.Calls.{Held, answer_to, line_after};
ghost use Rattle.line.specs.Records.{sending_of};
ghost use Rattle.line.specs.Sound.{Sound};
ghost use Rattle.line.specs.Views.{refused};

use super::book::Book;
use super::heads::Heads;
use super::memory::Parts;
use super::wire::Sending;
use model::calls::{Answer, Arrival, Call, Change, Choice, Closing, Departure, Opening, Refusal};
use model::limits::LONGEST;
use ready::queue::Ready;
use rules::rule::Rule;
use std::marker::Model;

// The rule of a line, the stamps of its heads, and its book.
#[derive(Drop)]
pub struct Line<R: Rule, Q: Ready> {
    rule: R,
    heads: Heads<Q>,
    book: Book,
}

impl<R: Rule, Q: Ready> Model for Line<R, Q> {
    ghost Value = { Held R };

    ghost view = { λ l. record { rule = l.rule; state = l.book } };

    ghost invariant = { λ l. Sound l.heads.finishes l.heads.starts l.book };
}

// The potential at the end of a packet: the sum, or the rule's base at these two figures where that is above it.
fn lifted<R: Rule>(rule: &R, sum: u64, least_start: u64, least_finish: u64) -> u64
    ensures { result ≡ max sum (R.Rule.acts.means rule.now least_start least_finish) }
{
    sum.max(rule.base(least_start, least_finish))
}

// Whether a line may be made for packets of at most so many bytes.
pub fn may_make(longest: u64) -> Result<(), Refusal>
    ensures told { refused result ≡ make_refusal longest }
    ensures proper { OnOk result (Proper (record { longest = longest })) }
{
    if longest == 0 || longest > LONGEST {
        return Err(Refusal::Longest);
    }
    Ok(())
}

impl<R: Rule + Drop, Q: Ready + Drop> Line<R, Q> {
    // A new line: all sessions closed, nothing waits or is sent. A refusal hands the parts back.
    pub fn make(longest: u64, parts: Parts<R>) -> Result<Line<R, Q>, (Refusal, Parts<R>)>
        ensures told { elim result [ Ok l ↦ make_refusal longest ≡ None | Err e ↦ make_refusal longest ≡ Some e.0 ] }
        ensures after { elim result [ Ok l ↦ l ≡ record { rule = parts.rule; state = made (record { longest = longest }) } | Err e ↦ e.1 ≡ parts ] }
    {
        match may_make(longest) {
            Err(refusal) => Err((refusal, parts)),
            Ok(()) => {
                let Parts { memory, rule } = parts;
                Ok(Line {
                    rule,
                    heads: Heads::new(),
                    book: Book::new(longest, memory),
                })
            }
        }
    }

    // Opens a session.
    pub fn open(&mut self, c: Opening) -> Result<(), Refusal>
        ensures told { said result ≡ answer_to R.Rule.acts self.old (Open c) }
        ensures after { self.new ≡ line_after R.Rule.acts self.old (Open c) }
    {
        self.book.open(c)
    }

    // Closes a session: a lowering of its share to 0.
    pub fn close(&mut self, c: Closing) -> Result<(), Refusal>
        ensures told { said result ≡ answer_to R.Rule.acts self.old (Close c) }
        ensures after { self.new ≡ line_after R.Rule.acts self.old (Close c) }
    {
        self.book.close(c)
    }

    // Changes a session's interval; its head is stamped anew.
    pub fn change(&mut self, c: Change) -> Result<(), Refusal>
        ensures told { said result ≡ answer_to R.Rule.acts self.old (Changing c) }
        ensures after { self.new ≡ line_after R.Rule.acts self.old (Changing c) }
    {
        self.book.change(c)?;
        self.heads.rekey(c.session as usize, &self.book);
        Ok(())
    }

    // Picks one of the rule's choices.
    pub fn pick(&mut self, c: Choice) -> Result<(), Refusal>
        ensures told { said result ≡ answer_to R.Rule.acts self.old (Pick c) }
        ensures after { self.new ≡ line_after R.Rule.acts self.old (Pick c) }
    {
        self.book.pick(self.rule.count() as u64, c)?;
        // The book has tested the number: the rule takes it.
        let _taken = self.rule.pick(c.number);
        Ok(())
    }

    // The line is at rest: the packet becomes head and goes on the wire in the same call, and no rule is asked.
    fn arrive_idle(&mut self, c: Arrival) -> Result<(), Refusal>
        requires { self.old.state.wire ≡ idle }
        ensures told { said result ≡ answer_to R.Rule.acts self.old (Arrive c) }
        ensures after { self.new ≡ line_after R.Rule.acts self.old (Arrive c) }
    {
        self.book.begin(c)
    }

    // Another packet is sent: this one waits, and only where it becomes head are there new stamps.
    fn arrive_sending(&mut self, c: Arrival) -> Result<(), Refusal>
        requires { resting self.old.state.wire ≡ false }
        ensures told { said result ≡ answer_to R.Rule.acts self.old (Arrive c) }
        ensures after { self.new ≡ line_after R.Rule.acts self.old (Arrive c) }
    {
        let heads = self.book.queue(c)?;
        if heads {
            self.heads.rekey(c.session as usize, &self.book);
        }
        Ok(())
    }

    // The packet on the wire ends: the head with the least finish goes next, once the rule's base may have lifted the
    // potential; where nothing waits the line comes to rest.
    fn free(&mut self, w: Sending)
        requires { self.old.state.wire ≡ sending (sending_of w) }
        ensures { self.new ≡ line_after R.Rule.acts self.old Depart }
    {
        match self.heads.least() {
            None => self.book.rest(w.end()),
            Some((first, start)) => {
                let noted = lifted(&self.rule, w.sum(), start.key.stamp, first.key.stamp);
                self.book.send(w.end(), first.session, noted);
                self.heads.rekey(first.session, &self.book);
            }
        }
    }

    // The packet on the wire leaves.
    fn depart_sending(&mut self, w: Sending) -> Departure
        requires { self.old.state.wire ≡ sending (sending_of w) }
        ensures told { Left result ≡ answer_to R.Rule.acts self.old Depart }
        ensures after { self.new ≡ line_after R.Rule.acts self.old Depart }
    {
        self.free(w);
        w.departure(self.book.waiting())
    }

    // Any call on the line.
    pub fn serve(&mut self, call: Call) -> Answer
        ensures told { answer_of result ≡ answer_to R.Rule.acts self.old call }
        ensures after { self.new ≡ line_after R.Rule.acts self.old call }
    {
        match (call, self.book.wire()) {
            (Call::Arrive(c), None) => self.arrive_idle(c)?,
            (Call::Arrive(c), Some(_)) => self.arrive_sending(c)?,
            (Call::Depart, None) => return Err(Refusal::Idle),
            (Call::Depart, Some(w)) => return Ok(Some(self.depart_sending(w))),
            (Call::Open(c), _) => self.open(c)?,
            (Call::Close(c), _) => self.close(c)?,
            (Call::Change(c), _) => self.change(c)?,
            (Call::Pick(c), _) => self.pick(c)?,
        }
        Ok(None)
    }

    // A packet arrives.
    pub fn arrive(&mut self, c: Arrival) -> Result<(), Refusal>
        ensures told { said result ≡ answer_to R.Rule.acts self.old (Arrive c) }
        ensures after { self.new ≡ line_after R.Rule.acts self.old (Arrive c) }
    {
        self.serve(Call::Arrive(c))?;
        Ok(())
    }

    // The packet on the wire leaves.
    pub fn depart(&mut self) -> Result<Departure, Refusal>
        ensures told { left result ≡ answer_to R.Rule.acts self.old Depart }
        ensures after { self.new ≡ line_after R.Rule.acts self.old Depart }
    {
        // A departure that is not refused has a packet that left.
        let left = self.serve(Call::Depart)?;
        Ok(left.unwrap())
    }
}
