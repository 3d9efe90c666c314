// A session of a line: its record, and what the calls make of it.
ghost use Rattle.std.specs.Prelude.{◌≡◌, ◌<◌, ◌≤◌, false, length, IfOk, nat_lt};
ghost use Rattle.std.specs.List.{AllByRecursion};
ghost use Rattle.model.specs.Model.{advance, any, blank, changed, closed, counted, due, finish, finish_key, first, frame, full, headed, hold, if_waits, joined, open_places, opened, position, rested, sent, share, start_key, waits};
ghost use Rattle.line.specs.Needed.{Light, Low, head_sent};
ghost use Rattle.line.specs.Records.{sending_of};

use super::wire::Sending;
use model::calls::Packet;
use model::limits::advance;
use ready::key::Key;
use rules::rule::FRAME;
use std::alloc::{AllocError, Global};
use std::collections::VecDeque;
use std::marker::Model;

// As many packets as all sessions of a line together have places.
pub(crate) const ALL_PLACES: usize = 256;

// What is booked for a session, its stamps, and its packets that wait, the oldest first. `start` and `due_start` are
// those of its head, the first that waits; `held` is the share still counted for it below its `mark`. `open` is a flag
// beside its interval and places, and they no `Option`: a closed session keeps both figures, and contracts name them.
#[derive(Drop)]
pub struct Session {
    open: bool,
    interval: u64,
    places: u64,
    last_finish: u64,
    last_due: u64,
    held: u64,
    mark: u64,
    start: u64,
    due_start: u64,
    waiting: VecDeque<Packet>,
}

// The memory behind it is no part of its value.
impl Model for Session {
    ghost use Rattle.model.specs.Model as M;

    ghost Value = { M.Session };

    ghost use Rattle.line.specs.Records.{session_of, Lasting};

    ghost view = { session_of };

    ghost invariant = { Lasting };
}

impl Session {
    // A session of a new line, with memory for as many packets as it can have places.
    pub(crate) fn new(heap: Global) -> Result<Session, AllocError>
        ensures { IfOk result (λ s. s ≡ blank) }
    {
        Ok(Session {
            open: false,
            interval: 0,
            places: 0,
            last_finish: 0,
            last_due: 0,
            held: 0,
            mark: 0,
            start: 0,
            due_start: 0,
            waiting: VecDeque::with_capacity(heap, ALL_PLACES)?,
        })
    }

    // Whether it is open.
    pub(crate) fn is_open(&self) -> bool
        ensures { result ≡ self.now.is_open }
    {
        self.open
    }

    // Its interval.
    pub(crate) fn interval(&self) -> u64
        ensures { result ≡ self.now.interval }
    {
        self.interval
    }

    // Its share of the frame.
    pub(crate) fn share(&self) -> u64
        ensures told { result ≡ share self.now }
        ensures part { result ≤ frame }
    {
        if self.open { FRAME / self.interval } else { 0 }
    }

    // What is counted of it at a position: its share, or its held share if that is greater and its mark is above.
    pub(crate) fn counted(&self, at: u64) -> u64
        ensures told { result ≡ counted at self.now }
        ensures part { result ≤ frame }
    {
        let share = self.share();
        if at < self.mark {
            share.max(self.held)
        } else {
            share
        }
    }

    // Its places, as long as it is open.
    pub(crate) fn open_places(&self) -> u64
        ensures { result ≡ open_places self.now }
    {
        if self.open { self.places } else { 0 }
    }

    // Whether a packet of it waits.
    pub(crate) fn waits(&self) -> bool
        ensures { result ≡ waits self.now }
    {
        !self.waiting.is_empty()
    }

    // Its mark is above the present potential.
    pub(crate) fn draining(&self, potential: u64) -> bool
        ensures { result ≡ nat_lt potential self.now.mark }
    {
        potential < self.mark
    }

    // Where it stands: at the present potential, or at its head's start (where none waits, its last finish).
    pub(crate) fn position(&self, potential: u64) -> u64
        ensures { result ≡ position potential self.now }
    {
        let level = if self.waits() {
            self.start
        } else {
            self.last_finish
        };
        potential.max(level)
    }

    // As many of its packets wait as it has places.
    pub(crate) fn full(&self) -> bool
        ensures { result ≡ full self.now }
    {
        self.waiting.len() as u64 >= self.places
    }

    // One of its packets that wait would not fit a share of this interval.
    pub(crate) fn too_long(&self, interval: u64) -> bool
        requires short { AllByRecursion (λ p. p.bytes ≤ 9216) self.now.waiting }
        requires divisor { interval ≤ frame }
        ensures { result ≡ any (λ p. nat_lt frame (advance p.bytes interval)) self.now.waiting }
    {
        self.waiting
            .iter()
            .any(|p| advance(p.bytes, interval) > FRAME)
    }

    // How far its head takes it on, 0 where none waits. `Low` is true of each session of a line, but `send` alone does not keep it,
    // so it is asked for here and below, and is no part of the type.
    fn head_advance(&self) -> u64
        requires { Low self.now }
        ensures told { result ≡ advance (first self.now.waiting).bytes self.now.interval }
        ensures part { result ≤ frame }
    {
        advance(
            self.waiting.front().map_or(0, |head| head.bytes),
            self.interval,
        )
    }

    // Its head's finish.
    fn finish(&self) -> u64
        requires { Low self.now }
        ensures { result ≡ finish self.now }
    {
        self.start + self.head_advance()
    }

    // Its head's due time.
    fn due(&self) -> u64
        requires { Low self.now }
        ensures { result ≡ due self.now }
    {
        self.due_start + self.head_advance()
    }

    // A stamp of its head as a key, none where no packet waits.
    fn key(&self, stamp: u64) -> Option<Key>
        ensures { result ≡ if_waits stamp self.now }
    {
        self.waits().then_some(Key { stamp })
    }

    // Its head's finish as a key.
    pub(crate) fn finish_key(&self) -> Option<Key>
        requires { Low self.now }
        ensures { result ≡ finish_key self.now }
    {
        self.key(self.finish())
    }

    // Its head's start as a key.
    pub(crate) fn start_key(&self) -> Option<Key>
        ensures { result ≡ start_key self.now }
    {
        self.key(self.start)
    }

    // Opens it: nothing is left of what it was before, but for the held share and its mark.
    pub(crate) fn open_with(&mut self, interval: u64, places: u64)
        requires quiet { waits self.old ≡ false }
        requires some { 0 < interval }
        ensures { self.new ≡ opened interval places self.old }
    {
        self.open = true;
        self.interval = interval;
        self.places = places;
        self.last_finish = 0;
        self.last_due = 0;
        self.start = 0;
        self.due_start = 0;
    }

    // Closes it: its share is lowered to 0, and held up to its position.
    pub(crate) fn close_at(&mut self, potential: u64)
        ensures { self.new ≡ closed potential self.old }
    {
        let held = self.counted(potential);
        let mark = self.position(potential);
        self.held = held;
        self.mark = mark;
        self.open = false;
    }

    // A new interval at a potential and a time: a lowering holds the old share up to the position, and the head is stamped anew.
    pub(crate) fn change_to(&mut self, interval: u64, potential: u64, time: u64)
        requires { 0 < interval }
        ensures { self.new ≡ changed potential time interval self.old }
    {
        let position = self.position(potential);
        if FRAME / interval < self.share() {
            self.held = self.counted(potential);
            self.mark = position;
        }
        self.interval = interval;
        self.start = position;
        self.due_start = self.due_start.max(time);
    }

    // The first that waits, if there is one, becomes head: it starts at its entry potential, and not before the last finish.
    fn stamp_head(&mut self)
        ensures { self.new ≡ headed self.old self.old.last_finish self.old.last_due self.old.waiting }
    {
        if let Some(head) = self.waiting.front() {
            self.start = self.last_finish.max(head.entry);
            self.due_start = self.last_due.max(head.arrival);
        }
    }

    // One packet more behind those that wait.
    pub(crate) fn join(&mut self, packet: Packet)
        requires { length self.old.waiting < 256 }
        ensures { self.new ≡ joined self.old self.old.waiting packet }
    {
        let first = self.waiting.is_empty();
        self.waiting.push_back_reserved(packet);
        if first {
            self.stamp_head();
        }
    }

    // Its head goes on the wire, with this potential noted: its finish and due time are the last ones now, and the next that
    // waits becomes head.
    pub(crate) fn send(&mut self, place: usize, noted: u64, begun: u64) -> Sending
        requires within { place < 32 }
        requires low { Low self.old }
        requires light { Light (head_sent place noted begun self.old) }
        ensures told { sending_of result ≡ head_sent place noted begun self.old }
        ensures after { self.new ≡ sent self.old }
    {
        let finish = self.finish();
        let due = self.due();
        let packet = self.waiting.pop_front().unwrap_or_default();
        self.last_finish = finish;
        self.last_due = due;
        self.stamp_head();
        Sending {
            session: place as u8,
            packet,
            due,
            noted,
            begun,
        }
    }

    // The line came to rest.
    pub(crate) fn rest(&mut self)
        ensures { self.new ≡ rested self.old }
    {
        self.last_finish = 0;
        self.held = 0;
        self.mark = 0;
    }
}
