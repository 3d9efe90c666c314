// A key with the session that has it.
ghost use Rattle.std.specs.Prelude.{◌≡◌};
ghost use Rattle.ready.specs.Least.{lesser, entry};

use super::key::Key;

#[derive(Clone, Copy, PartialEq, Eq, Debug)]
pub struct Entry {
    pub key: Key,
    pub session: usize,
}

// Of two entries the one with the lesser key; the first on equal keys.
pub(crate) fn lesser(a: Option<Entry>, b: Option<Entry>) -> Option<Entry>
    ensures { result ≡ lesser a b }
{
    match (a, b) {
        (None, _) => b,
        (_, None) => a,
        (Some(x), Some(y)) => if x.key.no_later(y.key) { a } else { b },
    }
}

// The entry of a session that has this key or none.
pub(crate) fn entry_of(session: usize, key: Option<Key>) -> Option<Entry>
    ensures { result ≡ entry session key }
{
    key.map(|key| Entry { key, session })
}
