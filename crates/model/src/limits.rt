// The limits of a line, and how far a packet takes its session on.
ghost use Rattle.std.specs.Prelude.{◌≡◌, ◌^◌, ◌<◌};
ghost use Rattle.model.specs.Model.{advance, bad_interval};

use rules::rule::FRAME;

// The longest packet of any line.
pub const LONGEST: u64 = 9_216;

// Whether an interval is 0 or no divisor of the frame.
pub fn bad_interval(interval: u64) -> bool
    ensures { result ≡ bad_interval interval }
{
    interval == 0 || FRAME % interval != 0
}

// How far a packet takes its session on.
#[tactic(auto, unfolding(crate::specs::Model::advance))]
pub fn advance(bytes: u64, interval: u64) -> u64
    requires { advance bytes interval < 2 ^ 64 }
    ensures { result ≡ advance bytes interval }
{
    bytes * interval
}
