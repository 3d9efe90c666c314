// The faults of the scanner and of the readers, each with the place where it was met.
ghost use Rattle.grammar.specs.Faults.{fault_number, fault_word};
ghost use Rattle.runfile.specs.Met.{fault_of, met, met_of, scan_met};
ghost use Rattle.runfile.specs.declared.faults.FormFault.TheVariants.{Scan};
ghost use Rattle.std.specs.Prelude.{◌≡◌};

use crate::place::Place;

// What can be wrong with a line: a bracket, a word, a number or a field is not as it should be. Each has its number.
#[derive(Clone, Copy, PartialEq, Eq, Debug)]
pub enum Fault {
    Bracket = 21,
    Word = 22,
    Number = 23,
    Field = 24,
}

impl Fault {
    // The number that a report has for it.
    pub fn number(self) -> u32
        ensures { result ≡ fault_number (fault_of self) }
    {
        self as u32
    }

    // The word that a report has for it; no `Display`, as for a refusal.
    pub fn word(self) -> &'static str
        ensures { result.now ≡ fault_word (fault_of self) }
    {
        match self {
            Fault::Bracket => "bracket",
            Fault::Word => "word",
            Fault::Number => "number",
            Fault::Field => "field",
        }
    }
}

// What the scanner meets: a byte that no token begins with, or a number of too many digits.
#[derive(Clone, Copy, PartialEq, Eq, Debug)]
pub enum ScanFault {
    Foreign(Place),
    Long(Place),
}

impl ScanFault {
    // What it is of a line, and where it was met.
    fn met(self) -> (Fault, Place)
        ensures { met_of result ≡ scan_met self }
    {
        match self {
            ScanFault::Foreign(place) => (Fault::Bracket, place),
            ScanFault::Long(place) => (Fault::Number, place),
        }
    }
}

// What is wrong with a form: the scanner's fault, or one of a token or of the fields.
#[derive(Clone, Copy, PartialEq, Eq, Debug)]
pub enum FormFault {
    Scan(ScanFault),
    Wrong(Fault, Place),
}

impl From<ScanFault> for FormFault {
    ghost from_gives = { λ e r. r ≡ Scan e };

    fn from(e: ScanFault) -> FormFault {
        FormFault::Scan(e)
    }
}

impl FormFault {
    // What it is of a line, and where it was met.
    fn met(self) -> (Fault, Place)
        ensures { met_of result ≡ met self }
    {
        match self {
            FormFault::Scan(fault) => fault.met(),
            FormFault::Wrong(fault, place) => (fault, place),
        }
    }

    // The number that a report has for the fault.
    pub fn number(self) -> u32
        ensures { result ≡ fault_number (met self).fault }
    {
        self.met().0.number()
    }

    // The word that a report has for the fault.
    pub fn word(self) -> &'static str
        ensures { result.now ≡ fault_word (met self).fault }
    {
        self.met().0.word()
    }

    // Where it was met.
    pub fn place(self) -> Place
        ensures { result ≡ (met self).place }
    {
        self.met().1
    }
}
