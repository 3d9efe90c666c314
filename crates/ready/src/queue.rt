// What a ready queue is.
ghost use Rattle.std.specs.Prelude.{◌≡◌, length, replicate, is_ok, Some, None, nat_lt, slice_set};
ghost use Rattle.ready.specs.Least.{Keys, least};

use super::entry::Entry;
use super::key::Key;

// The sessions are 0 to 31.
pub const SESSIONS: usize = 32;

// The refusal of a session above 31.
#[derive(Clone, Copy, PartialEq, Eq, Debug)]
pub struct NoSession;

// Refuses a session above 31.
pub(crate) fn known(session: usize) -> Result<(), NoSession>
    ensures { is_ok result ≡ nat_lt session 32 }
{
    (session < SESSIONS).then_some(()).ok_or(NoSession)
}

// A ready queue means, for each session, a key or none. A session above 31 is refused with no effect:
// `slice_set` past the end of a list leaves the list.
pub trait Ready: Sized {
    ghost keys: { Self → Keys };

    // A queue with no key.
    fn empty() -> Self
        ensures { keys result ≡ replicate 32 None };

    // Sets a session's key, or takes it away.
    fn set(&mut self, session: usize, key: Option<Key>) -> Result<(), NoSession>
        ensures taken { is_ok result ≡ nat_lt session 32 }
        ensures after { keys self.new ≡ slice_set (keys self.old) session key };

    // Sets a session's key.
    fn put(&mut self, session: usize, key: Key) -> Result<(), NoSession>
        ensures taken { is_ok result ≡ nat_lt session 32 }
        ensures after { keys self.new ≡ slice_set (keys self.old) session (Some key) }
    {
        self.set(session, Some(key))
    }

    // Takes a session's key away.
    fn clear(&mut self, session: usize) -> Result<(), NoSession>
        ensures taken { is_ok result ≡ nat_lt session 32 }
        ensures after { keys self.new ≡ slice_set (keys self.old) session None }
    {
        self.set(session, None)
    }

    // The least key and its session, the lower session on equal keys.
    fn least(&self) -> Option<Entry>
        ensures { result ≡ least (keys self.now) };

    ghost size: { (q : Self) → length (keys q) ≡ 32 };
}

// Sets or takes away a session's key; a session above 31 leaves the queue as it was.
pub fn set_key<Q: Ready>(queue: &mut Q, session: usize, key: Option<Key>)
    ensures { Q.Ready.keys queue.new ≡ slice_set (Q.Ready.keys queue.old) session key }
{
    // A refusal leaves the queue, which is what is promised.
    let _ = queue.set(session, key);
}
