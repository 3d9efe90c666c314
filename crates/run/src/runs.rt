// A whole text on a page.
ghost use Rattle.std.specs.Prelude.{◌≡◌, length};
ghost use Rattle.page.specs.Page.{laid, written};
ghost use Rattle.run.specs.Spelled.{Kept, page_of, spelled_in};
ghost use Rattle.run.specs.Stages.{stage_text};

use super::answering::{answer_line, put_outcome, put_run_fault};
use super::faults::RunFault;
use super::study::Study;
use line::memory::Parts;
use page::Page;
use ready::queue::Ready;
use rules::rule::Rule;
use runfile::lines::Lines;
use runfile::place::Place;

// The free bytes without which no line is answered.
const ROOM: usize = 192;

// The smallest page that is written on.
const SMALLEST: usize = 32;

// The longest text that is read.
const LONGEST_TEXT: usize = 65_536;

// Answers every line of the text on a page where nothing is laid.
fn answer_lines<R: Rule + Drop, Q: Ready + Drop>(
    mut study: Study<R, Q>,
    text: &[u8],
    page: &mut Page<'_>,
)
    requires { page.old.end ≡ 0 }
    ensures { page.new ≡ laid page.old (stage_text R.Rule.acts study (length page.old.bytes.now) text.now) }
{
    if page.room() < SMALLEST {
        return;
    }
    if text.len() > LONGEST_TEXT {
        put_run_fault(page, RunFault::Text);
        return;
    }
    for (i, line) in Lines::of(text).enumerate() {
        let number = i + 1;
        if page.room() < ROOM {
            put_run_fault(page, RunFault::Page(Place::start_of_line(0, number)));
            return;
        }
        put_outcome(page, answer_line(&mut study, line, number));
    }
}

// The same from the first byte of the page on; tells how many bytes are written.
fn run_study<R: Rule + Drop, Q: Ready + Drop>(
    study: Study<R, Q>,
    text: &[u8],
    page: &mut [u8],
) -> usize
    ensures count { result ≡ length (stage_text R.Rule.acts study (length page.old) text.now) }
    ensures bytes { page.new ≡ written page.old 0 (stage_text R.Rule.acts study (length page.old) text.now) }
{
    let mut page = Page::new(page);
    answer_lines(study, text, &mut page);
    page.len()
}

// Runs a whole text on a page with these parts of a line, and tells how many bytes are written. Every line is answered as
// the rules say after all the calls before it, and of the calls that the text spells all is promised.
pub fn run<R: Rule + Drop, Q: Ready + Drop>(parts: Parts<R>, text: &[u8], page: &mut [u8]) -> usize
    ensures count { result ≡ length (page_of R.Rule.acts parts.rule (length page.old) text.now) }
    ensures bytes { page.new ≡ written page.old 0 (page_of R.Rule.acts parts.rule (length page.old) text.now) }
    ensures promised { Kept R.Rule.acts parts.rule (spelled_in R.Rule.acts parts.rule (length page.old) text.now) }
{
    let study: Study<R, Q> = Study::new(parts);
    run_study(study, text, page)
}
