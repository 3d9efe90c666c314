// The run as a study editor in C calls it.
#![tactic(auto)]

ghost use Rattle.std.specs.Prelude.{length};
ghost use Rattle.run.specs.Program.{ProgramKept, Ran};

use std::alloc::Global;

// Runs the text on the page and tells how many bytes are written. The memory of the line is got first; where there is
// none, nothing is written and the answer is 0. C passes the two slices alone, each as a pointer and a length.
#[unsafe(no_mangle)]
pub extern "C" fn waskurin_run(heap: Global, text: &[u8], page: &mut [u8]) -> usize
    ensures ran { Ran text.now page.old result page.new }
    ensures promised { ProgramKept (length page.old) text.now }
{
    run::export::waskurin_run(heap, text, page)
}
