// The run as a study editor calls it, with the four plain rules and the knock-out tree.
ghost use Rattle.std.specs.Prelude.{length};
ghost use Rattle.run.specs.Program.{ProgramKept, Ran};

use super::runs::run;
use line::memory::{Memory, Parts};
use ready::tree::Tree;
use rules::program::{ProgramRule, program_rule};
use std::alloc::Global;

// Runs the text on the page and tells how many bytes are written. The memory of the line is got first; where there is
// none, nothing is written and the answer is 0.
pub fn waskurin_run(heap: Global, text: &[u8], page: &mut [u8]) -> usize
    ensures ran { Ran text.now page.old result page.new }
    ensures promised { ProgramKept (length page.old) text.now }
{
    let Ok(memory) = Memory::get(heap) else {
        return 0;
    };
    let parts: Parts<ProgramRule> = Parts {
        memory,
        rule: program_rule(),
    };
    run::<ProgramRule, Tree>(parts, text, page)
}
