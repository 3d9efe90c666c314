// The rule that the run program picks from.
ghost use Rattle.std.specs.Prelude.{◌≡◌, ◌≤◌, if◌then◌else◌, nat_lt};
ghost use Rattle.rules.specs.Bases.{clock_base, frame_base, start_base, stamp_base};
ghost use Rattle.rules.specs.Program.{program_acts, program_start, ProgramLaw};

use super::frame::Frame;
use super::pair::Pair;
use super::plain::{Clock, Plain, Stamp, Start};
use super::rule::Rule;

// Its choices are 0 clock, 1 frame, 2 start and 3 stamp.
pub type ProgramRule = Pair<Pair<Plain<Clock>, Plain<Frame>>, Pair<Plain<Start>, Plain<Stamp>>>;

// The program's rule with the clock standing.
pub fn program_rule() -> ProgramRule
    ensures start { result ≡ program_start }
    ensures standing { program_acts.means result ≡ clock_base }
    ensures four { program_acts.choices result ≡ 4 }
{
    let left = Pair::new(Plain(Clock), Plain(Frame));
    let right = Pair::new(Plain(Start), Plain(Stamp));
    Pair::new(left, right)
}

// Whatever stood before, a pick of 0, 1, 2 or 3 makes clock, frame, start or stamp stand, and there is no other choice.
pub fn program_law()
    ensures { ProgramLaw }
{}

// The base after a pick from any value of the program's rule: a number above 3 alters nothing.
pub fn base_after_pick(
    rule: &mut ProgramRule,
    number: u64,
    least_start: u64,
    least_finish: u64,
) -> u64
    ensures clock { number ≡ 0 → result ≡ clock_base least_start least_finish }
    ensures frame { number ≡ 1 → result ≡ frame_base least_start least_finish }
    ensures start { number ≡ 2 → result ≡ start_base least_start least_finish }
    ensures stamp { number ≡ 3 → result ≡ stamp_base least_start least_finish }
    ensures other { 4 ≤ number → result ≡ program_acts.means rule.old least_start least_finish }
    ensures after { rule.new ≡ (if nat_lt number 4 then program_acts.after rule.old number else rule.old) }
{
    // A pick that is not taken leaves the rule.
    let _taken = rule.pick(number);
    rule.base(least_start, least_finish)
}
