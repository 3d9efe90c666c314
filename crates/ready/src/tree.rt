// A ready queue as a knock-out tree.
ghost use Rattle.std.specs.Prelude.{◌≡◌, ◌<◌, true, length, take, drop, if◌then◌else◌, slice_set};
ghost use Rattle.std.proofs.Common.{arith};
ghost use Rattle.std.proofs.lemmas.List.{length-map, length-drop};
ghost use Rattle.ready.specs.Keys.{no_later, last};
ghost use Rattle.ready.specs.Levels.{shown, key_of, keys_of, leaf, leaves_of, in_time, winner, winners};

use super::entry::Entry;
use super::key::Key;
use super::queue::{NoSession, Ready, SESSIONS, known};

// No session has the number 32, and no key is later.
const VACANT: Entry = Entry {
    key: Key::LAST,
    session: SESSIONS,
};

// How many matches are above a leaf.
const LEVELS: u32 = 5;

// A knock-out over 32 leaves, the root first: the children of node n are the nodes 2n + 1 and 2n + 2, each node
// above the leaves is the winner of its children, and the leaf of session i is node 31 + i. A vacant entry is in
// place of `None`: with nodes of `Option<Entry>` a put and a least took half as long again at random keys.
#[derive(Drop)]
pub struct Tree {
    nodes: [Entry; 63],
    ghost full: { length nodes ≡ 63 },
    ghost own: { drop 31 nodes ≡ leaves_of 0 (keys_of (drop 31 nodes)) },
    ghost early: { in_time (drop 31 nodes) ≡ true },
    ghost won: { winners (drop 1 nodes) ≡ take 31 nodes },
}

// The one with the lesser key; the left on equal keys.
fn sooner(left: Entry, right: Entry) -> Entry
    ensures { result ≡ (if no_later left.key right.key then left else right) }
{
    if left.key.no_later(right.key) {
        left
    } else {
        right
    }
}

// The left one, unless it is vacant or the right one's key is sooner. Of equal keys the left is the lower
// session's; a vacant left one gives way to a real key that is the last one too. Two plain choices one
// after the other compile without a jump.
fn winner(left: Entry, right: Entry) -> Entry
    ensures { result ≡ winner left right }
{
    let first = sooner(left, right);
    if left.session < SESSIONS {
        first
    } else {
        right
    }
}

// The leaf of a session that has this key or none.
fn leaf(session: usize, key: Option<Key>) -> Entry
    requires { session < 32 }
    ensures is { result ≡ leaf session key }
    ensures key { key_of result ≡ key }
    ensures early { no_later result.key last ≡ true }
{
    key.map_or(
        VACANT,
        |key| Entry {
            key: key.in_time(),
            session,
        },
    )
}

// What a plain entry means.
fn shown(entry: Entry) -> Option<Entry>
    ensures { result ≡ shown entry }
{
    (entry.session < SESSIONS).then_some(entry)
}

// Writes a session's leaf and plays its matches again, up to the root. `first` is the first node of a level, and the
// turns are counted: so the compiler lays them out one after the other, with no jump.
fn replay(nodes: &mut [Entry; 63], session: usize, leaf: Entry)
    requires within { session < 32 }
    requires won { winners (drop 1 nodes.old) ≡ take 31 nodes.old }
    ensures full { length nodes.new ≡ 63 }
    ensures leaves { drop 31 nodes.new ≡ slice_set (drop 31 nodes.old) session leaf }
    ensures won { winners (drop 1 nodes.new) ≡ take 31 nodes.new }
{
    let mut first = 31;
    let mut place = session;
    let mut entry = leaf;
    for level in 0..LEVELS {
        nodes[first + place] = entry;
        first /= 2;
        place /= 2;
        let node = first + place;
        entry = winner(nodes[2 * node + 1], nodes[2 * node + 2]);
    }
    nodes[0] = entry;
}

impl Ready for Tree {
    ghost keys = { λ q. keys_of (drop 31 q.nodes) };

    ghost size = { λ q. Prim.omega (arith, q.full, length-map (drop 31 q.nodes) key_of, length-drop 31 q.nodes) };

    fn empty() -> Tree {
        Tree {
            nodes: [VACANT; 63],
        }
    }

    fn set(&mut self, session: usize, key: Option<Key>) -> Result<(), NoSession> {
        known(session)?;
        replay(&mut self.nodes, session, leaf(session, key));
        Ok(())
    }

    fn least(&self) -> Option<Entry> {
        shown(self.nodes[0])
    }
}
