// The laws of a text laid on a page, in plain words; the functions only carry them.
ghost use Rattle.page.specs.Page.{NoOther, OnlyThere};

// A text that fits changes the bytes where it stands, and no other.
#[tactic(auto, using(crate::proofs::Laid::only_there))]
pub fn only_there()
    ensures { OnlyThere }
{}

// No other page has the text there and its own bytes elsewhere.
#[tactic(auto, using(crate::proofs::Laid::no_other))]
pub fn no_other()
    ensures { NoOther }
{}
