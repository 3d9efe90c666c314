// What is called on a line, and what is answered.
ghost use Rattle.std.specs.Prelude.{◌≡◌};

#[derive(Clone, Copy, PartialEq, Eq, Debug)]
pub struct Opening {
    pub session: u64,
    pub interval: u64,
    pub places: u64,
    pub time: u64,
}

#[derive(Clone, Copy, PartialEq, Eq, Debug)]
pub struct Closing {
    pub session: u64,
    pub time: u64,
}

#[derive(Clone, Copy, PartialEq, Eq, Debug)]
pub struct Change {
    pub session: u64,
    pub interval: u64,
    pub time: u64,
}

#[derive(Clone, Copy, PartialEq, Eq, Debug)]
pub struct Choice {
    pub number: u64,
    pub time: u64,
}

#[derive(Clone, Copy, PartialEq, Eq, Debug)]
pub struct Arrival {
    pub session: u64,
    pub bytes: u64,
    pub time: u64,
}

#[derive(Clone, Copy, PartialEq, Eq, Debug)]
pub enum Call {
    Open(Opening),
    Close(Closing),
    Change(Change),
    Pick(Choice),
    Arrive(Arrival),
    Depart,
}

// Why a call is refused, each with its number.
#[derive(Clone, Copy, PartialEq, Eq, Debug)]
pub enum Refusal {
    Clock = 1,
    Overdue = 2,
    Session = 3,
    Taken = 4,
    Draining = 5,
    Closed = 6,
    Interval = 7,
    Length = 8,
    Places = 9,
    Share = 10,
    Full = 11,
    Busy = 12,
    Idle = 13,
    Rule = 14,
    Longest = 15,
    List = 16,
}

impl Refusal {
    ghost use Rattle.model.specs.Model.{number, word};

    // The number of a report, and the word behind it; not `Display`, since what prints the word on a page has to say which bytes
    // stand there also where printing fails, and `write!` does not.
    pub fn number(self) -> u8
        ensures { result ≡ number self }
    {
        self as u8
    }

    pub fn word(self) -> &'static str
        ensures { result.now ≡ word self }
    {
        match self {
            Refusal::Clock => "clock",
            Refusal::Overdue => "overdue",
            Refusal::Session => "session",
            Refusal::Taken => "taken",
            Refusal::Draining => "draining",
            Refusal::Closed => "closed",
            Refusal::Interval => "interval",
            Refusal::Length => "length",
            Refusal::Places => "places",
            Refusal::Share => "share",
            Refusal::Full => "full",
            Refusal::Busy => "busy",
            Refusal::Idle => "idle",
            Refusal::Rule => "rule",
            Refusal::Longest => "longest",
            Refusal::List => "list",
        }
    }
}

// A packet as the line keeps it: entry is the potential at its arrival.
#[derive(Clone, Copy, PartialEq, Eq, Debug, Default)]
pub struct Packet {
    pub bytes: u64,
    pub arrival: u64,
    pub entry: u64,
}

// A packet as its planner knows it.
#[derive(Clone, Copy, PartialEq, Eq, Debug)]
pub struct Parcel {
    pub bytes: u64,
    pub arrival: u64,
}

// A packet that left: spare is due less at, waiting counts the sessions that still wait.
#[derive(Clone, Copy, PartialEq, Eq, Debug)]
pub struct Departure {
    pub session: u8,
    pub bytes: u16,
    pub arrived: u64,
    pub at: u64,
    pub due: u64,
    pub spare: i64,
    pub waiting: u8,
}

// What left, if anything did, or why the call is refused.
pub type Answer = Result<Option<Departure>, Refusal>;
