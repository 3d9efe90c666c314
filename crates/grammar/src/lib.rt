// What is promised of the grammar of run files and of its reader: each function's contract is one theorem.
#![tactic(auto)]

ghost use Rattle.grammar.specs.Claims.{ColumnInLine, ColumnsShift, CutsIntoLines, FaultStays, FewLines, JoinsBack, OneCut, OneForm, ReadsWhatIsSpelled};
ghost use Rattle.grammar.specs.Examples.{Examples};
ghost use Rattle.grammar.specs.Lines.{FirstLine};
ghost use Rattle.grammar.specs.Slots.{SlotsServe};

// The reader reads exactly what a line spells.
pub fn reads_what_is_spelled()
    ensures { ReadsWhatIsSpelled }
{}

// A line spells at most one form.
pub fn one_form()
    ensures { OneForm }
{}

// A line has at most one list of tokens.
#[tactic(auto, using(crate::proofs::Uniques::one_cut))]
pub fn one_cut()
    ensures { OneCut }
{}

// A fault has a column of the line, or the one behind its last byte.
#[tactic(auto, using(crate::proofs::Lasting::column_in_line))]
pub fn column_in_line()
    ensures { ColumnInLine }
{}

// Counted from a later column, a fault is that much farther on, and nothing else changes.
#[tactic(auto, using(crate::proofs::Shifts::columns_shift))]
pub fn columns_shift()
    ensures { ColumnsShift }
{}

// A fault at a byte of the line stays, whatever follows behind a blank.
pub fn fault_stays()
    ensures { FaultStays }
{}

// Fields read into slots are the same as those read by the names still wanted.
#[tactic(auto, using(crate::proofs::Slots::slots_serve))]
pub fn slots_serve()
    ensures { SlotsServe }
{}

// A text is cut into the only lines that it is made of.
pub fn cuts_into_lines()
    ensures { CutsIntoLines }
{}

// A text begins with its first line, and the lines of the rest follow.
#[tactic(auto, using(crate::proofs::Cuts::first_line))]
pub fn first_line()
    ensures { FirstLine }
{}

// A text has no more lines than bytes.
#[tactic(auto, using(crate::proofs::Cuts::few_lines))]
pub fn few_lines()
    ensures { FewLines }
{}

// The lines of a text, each ended, are the text again.
#[tactic(auto, using(crate::proofs::Cuts::joins_back))]
pub fn joins_back()
    ensures { JoinsBack }
{}

// Lines that are read, and lines that are not.
pub fn examples_hold()
    ensures { Examples }
{}
