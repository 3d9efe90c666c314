// The plain rules: each is one function, and has one choice.
ghost use Rattle.std.specs.Prelude.{◌≡◌, ℕ};
ghost use Rattle.rules.specs.Bases.{clock_base, start_base, stamp_base, Lawful};
ghost use Rattle.rules.specs.Plain.{plain_acts};
ghost use Rattle.std.proofs.Common.{rules};

use super::rule::{FRAME, Rule};

// A function from the least start and the least finish to a base that is never above the least start.
pub trait Base: Sized {
    ghost base_of: { ℕ → ℕ → ℕ };

    // The base at these two figures.
    fn base(&self, least_start: u64, least_finish: u64) -> u64
        ensures { result ≡ base_of least_start least_finish };

    ghost lawful: { Lawful base_of };
}

// The rule that is this function for good.
#[derive(Clone, Copy)]
pub struct Plain<B>(pub B);

// How many choices it has.
const ONE: u32 = 1;

impl<B: Base> Rule for Plain<B> {
    ghost acts = { plain_acts B.base_of };

    ghost lawful = { λ _. B.lawful };

    ghost some = { Prim.search rules };

    ghost few = { Prim.search rules };

    ghost fixed = { Prim.search rules };

    fn count(&self) -> u32 {
        ONE
    }

    fn base(&self, least_start: u64, least_finish: u64) -> u64 {
        self.0.base(least_start, least_finish)
    }

    fn pick(&mut self, number: u64) -> bool {
        number < ONE as u64
    }
}

// The base is always 0.
#[derive(Clone, Copy)]
pub struct Clock;

impl Base for Clock {
    ghost base_of = { clock_base };

    ghost lawful = { Prim.search rules };

    fn base(&self, _least_start: u64, _least_finish: u64) -> u64 {
        0
    }
}

// The base is the least start itself.
#[derive(Clone, Copy)]
pub struct Start;

impl Base for Start {
    ghost base_of = { start_base };

    ghost lawful = { Prim.search rules };

    fn base(&self, least_start: u64, _least_finish: u64) -> u64 {
        least_start
    }
}

// The base is the least finish less a frame, or 0 where that is negative.
#[derive(Clone, Copy)]
pub struct Stamp;

impl Base for Stamp {
    ghost base_of = { stamp_base };

    ghost lawful = { Prim.search rules };

    fn base(&self, _least_start: u64, least_finish: u64) -> u64 {
        least_finish.saturating_sub(FRAME)
    }
}
