// A line as pieces, laid one behind another.
ghost use Rattle.std.specs.Prelude.{◌≡◌, ℤ, length};
ghost use Rattle.page.specs.Page.{HasRoom, laid};
ghost use Rattle.page.specs.Pieces.{line_text, piece_text};

use super::Page;

// A part of a line; 128 bits hold each number that an answer has, signed or not. Not `Display` and `write!`: a `write!` tells
// nothing of a page where it fails, nor that it succeeds where there is room.
#[derive(Clone, Copy)]
pub enum Piece<'a> {
    Text(&'a str),
    Number(i128),
}

impl Piece<'_> {
    // A number of any of the narrower types.
    pub fn number<N: Into<i128>>(number: N) -> Self
        ensures { (wide : ℤ) × N.converts number wide × (result ≡ Piece.Number wide) }
    {
        Piece::Number(number.into())
    }
}

impl Page<'_> {
    // Inlined, as `put_line` is: a line is a list of pieces that is known where it is laid, and is unrolled there.
    #[inline(always)]
    pub fn put(&mut self, piece: Piece<'_>)
        requires { HasRoom self.old (length (piece_text piece)) }
        ensures { self.new ≡ laid self.old (piece_text piece.entry) }
    {
        match piece {
            Piece::Text(text) => self.put_bytes(text.as_bytes()),
            Piece::Number(number) => self.put_number(number),
        }
    }

    // Lays the pieces one behind another.
    #[inline(always)]
    #[tactic(auto, using(crate::proofs::Lines::room_for_next, crate::proofs::Lines::next_laid))]
    pub fn put_line(&mut self, pieces: &[Piece<'_>])
        requires { HasRoom self.old (length (line_text pieces.now)) }
        ensures { self.new ≡ laid self.old (line_text pieces.now) }
    {
        for piece in pieces {
            self.put(*piece);
        }
    }
}
