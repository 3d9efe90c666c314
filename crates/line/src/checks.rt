// Why a call on the book is refused: each check true where its refusal fits, in the order of the calls.
ghost use Rattle.std.specs.Prelude.{◌≡◌, ◌*◌, ◌^◌, ◌<◌, ◌≤◌, [], ◌∷◌, nat_le, not, IfOk, OnOk};
ghost use Rattle.model.specs.declared.calls.Call.TheVariants.{Open, Close, Change as Changing, Pick, Arrive};
ghost use Rattle.model.specs.declared.calls.Refusal.TheVariants as refused_for;
ghost use Rattle.model.specs.Model.{all_places, at, bad_clock, bad_length, bad_places, busy, first_of, frame, overdue, potential, raised_unbooked, refusal, unbooked};
ghost use Rattle.line.specs.Views.{booked, refused};

use super::book::Book;
use super::session::ALL_PLACES;
use model::calls::{Arrival, Change, Choice, Closing, Opening, Refusal};
use model::limits::{advance, bad_interval};
use ready::queue::SESSIONS;
use rules::rule::FRAME;

const LATEST: u64 = 1 << 40;

// The place of a session in the book. A plain index, and no type of its own: it indexes the array, and a type would be
// taken apart wherever it is used.
fn place(session: u64) -> Result<usize, Refusal>
    ensures told { refused result ≡ first_of ((nat_le 32 session, refused_for.Session) ∷ []) }
    ensures is { IfOk result (λ i. (i ≡ session) × (i < 32)) }
{
    (session < SESSIONS as u64)
        .then_some(session as usize)
        .ok_or(Refusal::Session)
}

impl Book {
    // The packet on the wire ends before that time.
    fn overdue(&self, time: u64) -> bool
        ensures { result ≡ overdue self.now.wire time }
    {
        self.wire.is_some_and(|w| w.end() < time)
    }

    // A call at this time is not below the line's time, nor above 2^40, nor past the end of the packet on the wire.
    fn in_time(&self, time: u64) -> Result<(), Refusal>
        ensures told { refused result ≡ first_of ((bad_clock self.now time, refused_for.Clock) ∷ (overdue self.now.wire time, refused_for.Overdue) ∷ []) }
        ensures fair { OnOk result ((self.now.time ≤ time) × (time ≤ 2 ^ 40)) }
    {
        if time < self.time || time > LATEST {
            return Err(Refusal::Clock);
        }
        if self.overdue(time) {
            return Err(Refusal::Overdue);
        }
        Ok(())
    }

    // The present potential: 0 at rest, else the noted one and the ticks since.
    pub(crate) fn potential(&self, time: u64) -> u64
        requires { (self.now.time ≤ time) × (time ≤ 2 ^ 40) }
        ensures { result ≡ potential self.now.wire time }
    {
        self.wire.map_or(0, |w| w.noted + (time - w.begun))
    }

    // What is counted of all 32 sessions at a position: a `for`, by a rule of this project.
    fn booked(&self, at: u64) -> u64
        ensures told { result ≡ booked at self.now.sessions }
        ensures low { result ≤ frame * 32 }
    {
        let mut sum = 0;
        for s in self.sessions.iter() {
            sum += s.counted(at);
        }
        sum
    }

    // The places of all sessions that are open.
    fn all_places(&self) -> u64
        ensures told { result ≡ all_places self.now }
        ensures few { result ≤ 256 }
    {
        self.sessions.iter().map(|s| s.open_places()).sum()
    }

    // 0, or more than 256 in all.
    fn bad_places(&self, places: u64) -> bool
        ensures { result ≡ bad_places self.now places }
    {
        places == 0 || places > ALL_PLACES as u64 - self.all_places()
    }

    // A share at a position, beside what is counted of all other sessions there, does not fit the frame.
    fn unbooked(&self, i: usize, share: u64, at: u64) -> bool
        requires { (i < 32) × (share ≤ frame) }
        ensures { result ≡ unbooked self.now i share at }
    {
        let others = self.booked(at) - self.at(i).counted(at);
        share + others > FRAME
    }

    // A raise that does not fit: any other change is booked already.
    fn raised_unbooked(&self, i: usize, share: u64, at: u64) -> bool
        requires { (i < 32) × (share ≤ frame) }
        ensures { result ≡ raised_unbooked self.now i share at }
    {
        share > self.at(i).share() && self.unbooked(i, share, at)
    }

    // A packet of it waits or is on the wire.
    fn busy(&self, i: usize) -> bool
        requires { i < 32 }
        ensures { result ≡ busy self.now i }
    {
        self.at(i).waits() || self.wire.is_some_and(|w| w.session as usize == i)
    }

    // Bytes 0, above longest, or too many for a frame of the session.
    fn bad_length(&self, bytes: u64, interval: u64) -> bool
        requires { interval ≤ frame }
        ensures { result ≡ bad_length self.now.longest bytes interval }
    {
        bytes == 0 || bytes > self.longest || advance(bytes, interval) > FRAME
    }

    // The place of the session that may be opened so.
    pub(crate) fn may_open(&self, c: Opening) -> Result<usize, Refusal>
        ensures told { refused result ≡ refusal 0 self.now (Open c) }
        ensures is { IfOk result (λ i. (i ≡ c.session) × (i < 32)) }
    {
        self.in_time(c.time)?;
        let i = place(c.session)?;
        let s = self.at(i);
        if s.is_open() {
            return Err(Refusal::Taken);
        }
        let potential = self.potential(c.time);
        if s.draining(potential) {
            return Err(Refusal::Draining);
        }
        if bad_interval(c.interval) {
            return Err(Refusal::Interval);
        }
        if self.bad_places(c.places) {
            return Err(Refusal::Places);
        }
        if self.unbooked(i, FRAME / c.interval, potential) {
            return Err(Refusal::Share);
        }
        Ok(i)
    }

    // The place of an open session that is called in time.
    fn open_at(&self, session: u64, time: u64) -> Result<usize, Refusal>
        ensures told { refused result ≡ first_of ((bad_clock self.now time, refused_for.Clock) ∷ (overdue self.now.wire time, refused_for.Overdue) ∷ (nat_le 32 session, refused_for.Session) ∷ (not (at self.now session).is_open, refused_for.Closed) ∷ []) }
        ensures fair { OnOk result ((self.now.time ≤ time) × (time ≤ 2 ^ 40)) }
        ensures is { IfOk result (λ i. (i ≡ session) × (i < 32)) }
    {
        self.in_time(time)?;
        let i = place(session)?;
        if !self.at(i).is_open() {
            return Err(Refusal::Closed);
        }
        Ok(i)
    }

    // The place of the session that may be closed.
    pub(crate) fn may_close(&self, c: Closing) -> Result<usize, Refusal>
        ensures told { refused result ≡ refusal 0 self.now (Close c) }
        ensures is { IfOk result (λ i. (i ≡ c.session) × (i < 32)) }
    {
        let i = self.open_at(c.session, c.time)?;
        if self.busy(i) {
            return Err(Refusal::Busy);
        }
        Ok(i)
    }

    // The place of the session that may be changed so.
    #[tactic(auto, using(crate::proofs::Steadies::divisor_low))]
    pub(crate) fn may_change(&self, c: Change) -> Result<usize, Refusal>
        ensures told { refused result ≡ refusal 0 self.now (Changing c) }
        ensures is { IfOk result (λ i. (i ≡ c.session) × (i < 32)) }
    {
        let i = self.open_at(c.session, c.time)?;
        let s = self.at(i);
        if bad_interval(c.interval) {
            return Err(Refusal::Interval);
        }
        if s.too_long(c.interval) {
            return Err(Refusal::Length);
        }
        let position = s.position(self.potential(c.time));
        if self.raised_unbooked(i, FRAME / c.interval, position) {
            return Err(Refusal::Share);
        }
        Ok(i)
    }

    // Whether a rule of so many choices may be picked from.
    pub(crate) fn may_pick(&self, choices: u64, c: Choice) -> Result<(), Refusal>
        ensures { refused result ≡ refusal choices self.now (Pick c) }
    {
        self.in_time(c.time)?;
        (c.number < choices).then_some(()).ok_or(Refusal::Rule)
    }

    // The place of the session that the packet may join.
    pub(crate) fn may_arrive(&self, c: Arrival) -> Result<usize, Refusal>
        ensures told { refused result ≡ refusal 0 self.now (Arrive c) }
        ensures is { IfOk result (λ i. (i ≡ c.session) × (i < 32)) }
    {
        let i = self.open_at(c.session, c.time)?;
        let s = self.at(i);
        if self.bad_length(c.bytes, s.interval()) {
            return Err(Refusal::Length);
        }
        if s.full() {
            return Err(Refusal::Full);
        }
        Ok(i)
    }
}
