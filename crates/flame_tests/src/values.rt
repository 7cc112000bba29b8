//! Lists of values on the heap, copied and compared through their bounds.

use flame_rows::{Boxed, Copied, NoMemory, Same, Seq, Text};
use std::alloc::Global;
use std::test::Fail;

/// Whether a copy is the same as what it was made of.
fn is_copied<T: Same + Copied + Drop>(alloc: Global, value: &T) -> Result<bool, NoMemory> {
    let copied = value.copy(alloc)?;
    Ok(value.same(&copied))
}

/// The list of one text on the heap.
fn list(alloc: Global, text: &str) -> Result<Seq<Boxed<Text>>, NoMemory> {
    let held = Boxed::of(alloc, Text::of(alloc, text)?)?;
    Ok(Seq::of(vec![in alloc; held]?))
}

#[test]
fn a_copy_is_the_same(rt: HostRuntime) -> Result<(), Fail> {
    let list = list(rt.alloc(), "größe")?;
    assert!(rt; is_copied(rt.alloc(), &list)?);
    Ok(())
}

#[test]
fn another_is_not_the_same(rt: HostRuntime) -> Result<(), Fail> {
    let one = list(rt.alloc(), "x")?;
    let other = list(rt.alloc(), "y")?;
    assert!(rt; !one.same(&other) && one != other);
    Ok(())
}
