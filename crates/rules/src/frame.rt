// The frame rule's base.
ghost use Rattle.rules.specs.Bases.{frame_base, FrameLaw};
ghost use Rattle.std.proofs.Common.{rules};

use super::plain::Base;
use super::rule::FRAME;

// The base is the greatest multiple of the frame that is not above the least start.
#[derive(Clone, Copy)]
pub struct Frame;

impl Base for Frame {
    ghost base_of = { frame_base };

    ghost lawful = { Prim.search rules };

    fn base(&self, least_start: u64, _least_finish: u64) -> u64 {
        least_start / FRAME * FRAME
    }
}

// The frame's base is a multiple of the frame, not above the least start and less than a frame below it.
pub fn frame_base_law()
    ensures { FrameLaw }
{}
