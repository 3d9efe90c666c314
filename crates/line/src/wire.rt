// What is on the wire.
ghost use Rattle.std.specs.Prelude.{◌≡◌, ◌+◌, ◌-◌, ◌≤◌};
ghost use Rattle.model.specs.Model.{departure, end, wire_ticks};
ghost use Rattle.line.specs.Needed.{Light};

use model::calls::{Departure, Packet};

// A packet on the wire, its due time, the potential noted when it went there, and that time.
#[derive(Clone, Copy)]
pub struct Sending {
    pub(crate) session: u8,
    pub(crate) packet: Packet,
    pub(crate) due: u64,
    pub(crate) noted: u64,
    pub(crate) begun: u64,
    ghost light: { Light (record { session = session; packet = packet; due = due; noted = noted; begun = begun }) },
}

// The ticks that a packet takes on the wire: a line sends a byte a tick.
#[tactic(auto, unfolding(model::specs::Model::wire_ticks))]
fn ticks(bytes: u64) -> u64
    ensures { result ≡ wire_ticks bytes }
{
    bytes
}

impl Sending {
    ghost use Rattle.line.specs.Records.{sending_of};

    // The time at which the wire is free again.
    pub(crate) fn end(&self) -> u64
        ensures { result ≡ end (sending_of self.now) }
    {
        self.begun + ticks(self.packet.bytes)
    }

    // The potential at that time.
    pub(crate) fn sum(&self) -> u64
        ensures { result ≡ self.now.noted + wire_ticks self.now.packet.bytes }
    {
        self.noted + ticks(self.packet.bytes)
    }

    // What is told of its packet as it leaves, where so many sessions still wait.
    pub(crate) fn departure(&self, waiting: u8) -> Departure
        ensures { result ≡ departure (sending_of self.now) waiting }
    {
        let at = self.end();
        Departure {
            session: self.session,
            bytes: self.packet.bytes as u16,
            arrived: self.packet.arrival,
            at,
            due: self.due,
            spare: self.due as i64 - at as i64,
            waiting,
        }
    }
}
