// Answer lines laid on a page, every byte of it told.
ghost use Rattle.std.specs.Prelude.{◌≡◌, ◌+◌, ◌≤◌, length};
ghost use Rattle.answers.specs.Lines.{answer_text, fault_line, left_text, refused_text};
ghost use Rattle.model.specs.Answers.{answer_of};
ghost use Rattle.page.specs.Page.{HasRoom, laid};

use model::calls::{Answer, Departure, Refusal};
use page::Page;
use page::pieces::Piece;

// The fault of a line by its number and word, with the place where it was met.
#[derive(Clone, Copy)]
pub struct Fault<'a> {
    pub number: u32,
    pub word: &'a str,
    pub line: usize,
    pub column: usize,
}

// A call that is refused.
#[tactic(auto, unfolding(crate::specs::Lines::refused_text))]
fn put_refused(page: &mut Page<'_>, refusal: Refusal)
    requires { HasRoom page.old (length (refused_text refusal)) }
    ensures { page.new ≡ laid page.old (refused_text refusal) }
{
    page.put_line(&[
        Piece::Text("(refused "),
        Piece::number(refusal.number()),
        Piece::Text(" "),
        Piece::Text(refusal.word()),
        Piece::Text(")\n"),
    ]);
}

// A packet that has left.
fn put_left(page: &mut Page<'_>, left: Departure)
    requires { HasRoom page.old (length (left_text left)) }
    ensures { page.new ≡ laid page.old (left_text left) }
{
    page.put_line(&[
        Piece::Text("(left (session "),
        Piece::number(left.session),
        Piece::Text(") (bytes "),
        Piece::number(left.bytes),
        Piece::Text(") (arrived "),
        Piece::number(left.arrived),
        Piece::Text(") (at "),
        Piece::number(left.at),
        Piece::Text(") (due "),
        Piece::number(left.due),
        Piece::Text(") (spare "),
        Piece::number(left.spare),
        Piece::Text(") (waiting "),
        Piece::number(left.waiting),
        Piece::Text("))\n"),
    ]);
}

// What a call was answered.
#[tactic(auto, using(crate::proofs::Lengths::left_short, crate::proofs::Lengths::refused_short))]
pub fn put_answer(page: &mut Page<'_>, answer: Answer)
    requires { HasRoom page.old 192 }
    ensures near { page.new.end ≤ page.old.end + 168 }
    ensures text { page.new ≡ laid page.old (answer_text (answer_of answer)) }
{
    match answer {
        Ok(None) => page.put_bytes(b"(done)\n"),
        Ok(Some(left)) => put_left(page, left),
        Err(refusal) => put_refused(page, refusal),
    }
}

// The fault of a line.
#[tactic(auto, unfolding(crate::specs::Lines::fault_text))]
pub fn put_fault(page: &mut Page<'_>, fault: Fault<'_>)
    requires { HasRoom page.old (length (fault_line fault)) }
    ensures { page.new ≡ laid page.old (fault_line fault.entry) }
{
    page.put_line(&[
        Piece::Text("(fault "),
        Piece::number(fault.number),
        Piece::Text(" "),
        Piece::Text(fault.word),
        Piece::Text(" "),
        Piece::number(fault.line as u64),
        Piece::Text(" "),
        Piece::number(fault.column as u64),
        Piece::Text(")\n"),
    ]);
}
