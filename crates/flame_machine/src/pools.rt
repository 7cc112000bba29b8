//! Lists that are filled.

ghost use Rattle.std.specs.Prelude.{◌≡◌, ◌-◌, ◌≤◌, ◌++◌, length, OnOk, replicate, pos};

use flame_rows::NoMemory;

/// Fills the list with 0 to so many numbers, for which memory is taken at once. A list of as many stays as it is.
#[tactic(auto, using(crate::proofs::Zeros::filled_up, crate::proofs::Zeros::no_zeros))]
pub fn fill(list: &mut Vec<i32>, count: usize) -> Result<(), NoMemory>
    ensures items { OnOk result (list.new.items ≡ list.old.items ++ replicate (count - length list.old.items) (pos 0)) }
    ensures long { OnOk result (count ≤ length list.new.items) }
{
    if list.len() < count {
        list.resize(count, 0)?;
    }
    Ok(())
}
