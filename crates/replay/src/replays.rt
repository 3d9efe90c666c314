// Every call of a list, made in order on one new line.
ghost use Rattle.std.specs.Prelude.{◌≡◌, [], Some, None, Ok, Err};
ghost use Rattle.model.specs.Model.{calls_on, make_refusal, replay};
ghost use Rattle.model.specs.Promises.{Promised};
ghost use Rattle.replay.specs.Turns.{calls_of, history_of, run_of, setup_of};

use super::turn::Turn;
use line::lined::Line;
use line::memory::Parts;
use model::calls::Refusal;
use ready::queue::Ready;
use rules::rule::Rule;

// Makes every call of the turns on a line, and fills in the answers.
fn play<R: Rule + Drop, Q: Ready + Drop>(line: &mut Line<R, Q>, turns: &mut [Turn])
    ensures { run_of line.new turns.new ≡ calls_on R.Rule.acts (run_of line.old []) (calls_of turns.old) }
{
    for turn in turns.iter_mut() {
        turn.answer = line.serve(turn.call);
    }
}

// Makes a line and every call of the turns on it, refused ones included, and fills in the answers.
pub fn replay<R: Rule + Drop, Q: Ready + Drop>(
    longest: u64,
    parts: Parts<R>,
    turns: &mut [Turn],
) -> Result<(), Refusal>
    ensures told { elim result [ Ok done ↦ make_refusal longest ≡ None | Err e ↦ make_refusal longest ≡ Some e ] }
    ensures answers { elim result [ Ok done ↦ history_of turns.new ≡ (replay R.Rule.acts parts.rule (setup_of longest) (calls_of turns.old)).history | Err e ↦ turns.new ≡ turns.old ] }
    ensures promised { elim result [ Ok done ↦ Promised R.Rule.acts parts.rule (setup_of longest) (calls_of turns.old) | Err e ↦ Unit {0} ] }
{
    let mut line: Line<R, Q> = Line::make(longest, parts).map_err(|(refusal, _)| refusal)?;
    play(&mut line, turns);
    Ok(())
}

// Makes the same calls on two lines with the same rule: they are answered alike, whatever ready queues the lines have.
pub fn replay_both<R: Rule + Drop, P: Ready + Drop, Q: Ready + Drop>(
    longest: u64,
    one: Parts<R>,
    other: Parts<R>,
    first: &mut [Turn],
    second: &mut [Turn],
) -> Result<(), Refusal>
    ensures told { elim result [ Ok done ↦ make_refusal longest ≡ None | Err e ↦ make_refusal longest ≡ Some e ] }
    ensures first { elim result [ Ok done ↦ history_of first.new ≡ (replay R.Rule.acts one.rule (setup_of longest) (calls_of first.old)).history | Err e ↦ first.new ≡ first.old ] }
    ensures second { elim result [ Ok done ↦ history_of second.new ≡ (replay R.Rule.acts other.rule (setup_of longest) (calls_of second.old)).history | Err e ↦ second.new ≡ second.old ] }
    ensures alike { elim result [ Ok done ↦ (one.rule ≡ other.rule → calls_of first.old ≡ calls_of second.old → history_of first.new ≡ history_of second.new) | Err e ↦ make_refusal longest ≡ Some e ] }
{
    replay::<R, P>(longest, one, first)?;
    replay::<R, Q>(longest, other, second)
}
