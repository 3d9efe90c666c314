// Packets in the book: they join their session, go on the wire, and leave the line at rest.
ghost use Rattle.std.specs.Prelude.{◌≡◌, ◌<◌, false, not, IfOk, count_by};
ghost use Rattle.model.specs.declared.calls.Call.TheVariants.{Arrive};
ghost use Rattle.model.specs.Answers.{said};
ghost use Rattle.model.specs.Invariants.{Steady};
ghost use Rattle.model.specs.Model.{at, at_rest, later, resting, sends, waits};
ghost use Rattle.model.specs.Model.Wire.{idle};
ghost use Rattle.line.specs.Views.{after, told};
ghost use Rattle.line.specs.Waiting.{waiting_set};

use super::book::Book;
use model::calls::{Arrival, Packet, Refusal};

impl Book {
    // An arrival at rest: the packet becomes head and goes on the wire at once.
    pub(crate) fn begin(&mut self, c: Arrival) -> Result<(), Refusal>
        requires { self.old.wire ≡ idle }
        ensures told { said result ≡ told self.old (Arrive c) }
        ensures after { self.new ≡ after self.old (Arrive c) }
    {
        let i = self.may_arrive(c)?;
        let s = &mut self.sessions[i];
        s.join(Packet {
            bytes: c.bytes,
            arrival: c.time,
            entry: 0,
        });
        self.wire = Some(s.send(i, 0, c.time));
        self.time = c.time;
        Ok(())
    }

    // An arrival while another packet is sent: it waits, and keeps the present potential. Tells whether it became head.
    pub(crate) fn queue(&mut self, c: Arrival) -> Result<bool, Refusal>
        requires { resting self.old.wire ≡ false }
        ensures told { said result ≡ told self.old (Arrive c) }
        ensures after { self.new ≡ after self.old (Arrive c) }
        ensures head { IfOk result (λ h. h ≡ not (waits (at self.old c.session))) }
    {
        let i = self.may_arrive(c)?;
        let entry = self.potential(c.time);
        let s = &mut self.sessions[i];
        let head = !s.waits();
        s.join(Packet {
            bytes: c.bytes,
            arrival: c.time,
            entry,
        });
        self.time = c.time;
        Ok(head)
    }

    // The head of a session goes on the wire at this time, with this potential noted.
    pub(crate) fn send(&mut self, time: u64, i: usize, noted: u64)
        requires within { i < 32 }
        requires steady { Steady (sends (later self.old time) i noted) }
        ensures { self.new ≡ sends (later self.old time) i noted }
    {
        self.wire = Some(self.sessions[i].send(i, noted, time));
        self.time = time;
    }

    // Nothing waits: last finishes, held shares and marks become 0, and last dues stay.
    pub(crate) fn rest(&mut self, time: u64)
        requires { Steady (at_rest (later self.old time)) }
        ensures { self.new ≡ at_rest (later self.old time) }
    {
        for s in self.sessions.iter_mut() {
            s.rest();
        }
        self.wire = None;
        self.time = time;
    }

    // The set of sessions that have a packet waiting, session 0 the lowest bit. A loop, and no `fold`: tried, its closure
    // asks that the set so far has room for one bit more, which says no more and is proved at greater length.
    fn waiting_set(&self) -> u32
        ensures { result ≡ waiting_set self.now.sessions }
    {
        let mut set = 0;
        for s in self.sessions.iter().rev() {
            set = set * 2 + u32::from(s.waits());
        }
        set
    }

    // How many sessions have a packet waiting.
    pub(crate) fn waiting(&self) -> u8
        ensures { result ≡ count_by waits self.now.sessions }
    {
        self.waiting_set().count_ones() as u8
    }
}
