// The least of some keys, in the subject's words.
ghost use Rattle.ready.specs.Least.{LeastLaw};

// An entry is the least exactly if its session has its key, no key is sooner, and each lower session's key is later.
pub fn least_is_least()
    ensures { LeastLaw }
{}
