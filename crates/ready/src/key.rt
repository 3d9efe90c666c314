// The keys by which sessions are ranked.
ghost use Rattle.std.specs.Prelude.{◌≡◌, true};
ghost use Rattle.ready.specs.Keys.{no_later, last};

#[derive(Clone, Copy, PartialEq, Eq, PartialOrd, Ord, Debug)]
pub struct Key {
    pub stamp: u64,
}

impl Key {
    // No key is later than this one.
    pub const LAST: Key = Key { stamp: u64::MAX };

    // The key itself, for what it ensures: no key is later than the last.
    #[tactic(auto, using(crate::proofs::Ranks::before_last))]
    pub(crate) fn in_time(self) -> Key
        ensures is { result ≡ self }
        ensures early { no_later result last ≡ true }
    {
        self
    }

    // The one comparison of keys: all else goes through it.
    pub fn no_later(self, other: Key) -> bool
        ensures { result ≡ no_later self other }
    {
        self <= other
    }
}
