// Ready queues of both makes on examples.
use super::entry::*;
use super::key::*;
use super::queue::*;
use super::table::*;
use super::tree::*;
use std::process::Abort;

fn first(stamp: u64, session: usize) -> Option<Entry> {
    Some(Entry {
        key: Key { stamp },
        session,
    })
}

fn goes_through<Q: Ready + Drop>(rt: &impl Abort) {
    let mut queue = Q::empty();
    assert_eq!(rt; queue.least(), None);
    assert_eq!(rt; queue.put(7, Key { stamp: 50 }), Ok(()));
    assert_eq!(rt; queue.put(31, Key { stamp: 40 }), Ok(()));
    assert_eq!(rt; queue.least(), first(40, 31));
    assert_eq!(rt; queue.put(3, Key { stamp: 40 }), Ok(()));
    assert_eq!(rt; queue.least(), first(40, 3));
    assert_eq!(rt; queue.put(3, Key { stamp: 60 }), Ok(()));
    assert_eq!(rt; queue.clear(31), Ok(()));
    assert_eq!(rt; queue.least(), first(50, 7));
    assert_eq!(rt; queue.put(32, Key { stamp: 1 }), Err(NoSession));
    assert_eq!(rt; queue.clear(32), Err(NoSession));
    assert_eq!(rt; queue.least(), first(50, 7));
    set_key(&mut queue, 7, None);
    set_key(&mut queue, 3, None);
    set_key(&mut queue, 9, Some(Key::LAST));
    assert_eq!(rt; queue.least(), first(u64::MAX, 9));
}

#[test]
fn table(rt: HostRuntime) {
    goes_through::<Table>(&rt);
}

#[test]
fn tree(rt: HostRuntime) {
    goes_through::<Tree>(&rt);
}
