//! Files in memory, of which chosen calls fail.

ghost use Rattle.std.specs.Prelude.{IsTrue};

use flame_outside::{Depot, Got, MemDepot, PutFail};
use flame_rows::NoMemory;
use std::test::Fail;

/// Puts a file. Tells whether that failed; none where memory was not found.
pub(crate) fn put_failed<D: Depot>(depot: &mut D, name: &str, bytes: &[u8]) -> Option<bool> {
    match depot.put(name, bytes) {
        Ok(()) => Some(false),
        Err(PutFail::Failed) => Some(true),
        Err(PutFail::NoMemory) => None,
    }
}

/// Whether a read of so many bytes at most finds these.
pub(crate) fn finds<D: Depot>(depot: &mut D, name: &str, most: usize, bytes: &[u8]) -> bool {
    match depot.read(name, most) {
        Ok(Got::Bytes(found)) => found.bytes() == bytes,
        _ => false,
    }
}

#[test]
fn a_put_that_fails_leaves_a_front(rt: HostRuntime) -> Result<(), Fail> {
    let alloc = rt.alloc();
    let mut depot = MemDepot::new(alloc, vec![in alloc; 1]?);
    assert!(rt; put_failed(&mut depot, "b", b"1234") == Some(false));
    assert!(rt; put_failed(&mut depot, "b", b"567") == Some(true));
    assert!(rt; finds(&mut depot, "b", 9, b"5"));
    Ok(())
}

/// Puts a file into a depot that never fails, seen through its bound.
fn keep<D: Depot>(depot: &mut D, name: &str, bytes: &[u8]) -> Result<(), NoMemory>
    requires { IsTrue (D.seen depot.old).calm }
    ensures calm { IsTrue (D.seen depot.new).calm }
{
    match depot.put(name, bytes) {
        Ok(()) => Ok(()),
        Err(PutFail::Failed) => unreachable!(),
        Err(PutFail::NoMemory) => Err(NoMemory),
    }
}

#[test]
fn a_depot_of_an_empty_list_never_fails(rt: HostRuntime) {
    let alloc = rt.alloc();
    let mut depot = MemDepot::new(alloc, Vec::new(alloc));
    assert!(rt; keep(&mut depot, "a", b"1").is_ok());
    assert!(rt; keep(&mut depot, "b", b"2").is_ok());
}
