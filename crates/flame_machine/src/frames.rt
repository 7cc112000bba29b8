//! One run of a code: what it holds beside its place, its locals and its memory.

ghost use Rattle.std.specs.Prelude.{◌≡◌, ◌+◌, ◌<◌, ◌≤◌, ℤ, pos, ◌∷◌, length, reverse, take, drop, slice_set, IfOk};
ghost use Rattle.flame_spec.specs.Conditions.{number_at};
ghost use Rattle.flame_machine.specs.MachineFrames.{held, with_value, without};

use flame_rows::{NoMemory, Row};
use std::alloc::Global;

/// The height of a run's stack, its top and the run's fuel. The values below the top lie in cells that are lent to the run,
/// from 1 on; of these there are at least as many as the code has instructions. So no push allocates.
#[derive(Drop)]
pub struct Frame {
    height: usize,
    top: i32,
    fuel: u32,
}

/// The number in this place of a list.
#[inline(always)]
pub fn number_in(numbers: &[i32], place: usize) -> i32
    requires { place < length numbers.now }
    ensures { result ≡ number_at numbers.now place }
{
    numbers[place]
}

/// Changes the number in this place of a list.
#[inline(always)]
pub fn set_number(numbers: &mut [i32], place: usize, value: i32)
    requires { place < length numbers.old }
    ensures { numbers.new ≡ slice_set numbers.old place value }
{
    numbers[place] = value;
}

impl Frame {
    /// At the begin of a code.
    pub fn begin(fuel: u32) -> Frame
        ensures { result ≡ record { height = 0; top = pos 0; fuel = fuel } }
    {
        Frame {
            height: 0,
            top: 0,
            fuel,
        }
    }

    /// Behind a call, with so many values on the stack, of which this one is the top, and with this fuel.
    #[inline(always)]
    pub fn resumed(height: usize, top: i32, fuel: u32) -> Frame
        ensures { result ≡ record { height = height; top = top; fuel = fuel } }
    {
        Frame { height, top, fuel }
    }

    /// Puts the value on the stack, which has room for it.
    #[inline(always)]
    #[tactic(auto, using(crate::proofs::Stacks::kept_on))]
    pub fn push(&mut self, cells: &mut [i32], value: i32)
        requires { self.old.height < length cells.old }
        ensures stack { held self.new cells.new ≡ with_value value (held self.old cells.old) }
        ensures height { self.new.height ≡ self.old.height + 1 }
    {
        cells[self.height] = self.top;
        self.top = value;
        self.height += 1;
    }

    /// Takes the top from the stack.
    #[inline(always)]
    #[tactic(auto, using(crate::proofs::Stacks::kept_off))]
    pub fn pop(&mut self, cells: &[i32]) -> i32
        requires some { 1 ≤ self.old.height }
        requires fits { self.old.height ≤ length cells.now }
        ensures stack { held self.old cells.now ≡ with_value result (held self.new cells.now) }
        ensures height { self.old.height ≡ self.new.height + 1 }
    {
        let value = self.top;
        self.height -= 1;
        self.top = cells[self.height];
        value
    }

    /// The row of so many values of the stack, the top as the last one. A short row takes no memory.
    #[inline(always)]
    #[tactic(auto, using(crate::proofs::Stacks::kept_below))]
    pub fn row(&self, cells: &mut [i32], alloc: Global, count: usize) -> Result<Row, NoMemory>
        requires count { count ≤ self.now.height }
        requires room { self.now.height < length cells.old }
        ensures row { IfOk result (λ row. row ≡ reverse (take count (held self.now cells.old).stack)) }
        ensures same { held self.now cells.new ≡ held self.now cells.old }
    {
        cells[self.height] = self.top;
        let end = self.height + 1;
        Row::of_slice(alloc, &cells[end - count..end])
    }

    /// Takes so many values from the stack.
    #[inline(always)]
    pub fn drop_row(&mut self, cells: &[i32], count: usize)
        requires count { count ≤ self.old.height }
        requires fits { self.old.height ≤ length cells.now }
        ensures stack { held self.new cells.now ≡ without count (held self.old cells.now) }
        ensures height { self.new.height + count ≡ self.old.height }
    {
        if count > 0 {
            self.height -= count;
            self.top = cells[self.height];
        }
    }

    /// The cell from which on so many values of the stack lie, the top as the last one: a helper whose arguments they are
    /// has its first locals there. It is the height of the stack behind the call.
    #[inline(always)]
    pub fn lent(&self, cells: &mut [i32], count: usize) -> usize
        requires count { count ≤ self.now.height }
        requires room { self.now.height < length cells.old }
        ensures place { result + count ≡ self.now.height + 1 }
        ensures within { result + count ≤ length cells.new }
        ensures args { take count (drop result cells.new) ≡ reverse (take count (held self.now cells.old).stack) }
        ensures behind { (v : ℤ) → take result (v ∷ reverse (take result cells.new))
            ≡ v ∷ drop count (held self.now cells.old).stack }
    {
        cells[self.height] = self.top;
        self.height + 1 - count
    }

    /// The fuel that is left.
    #[inline(always)]
    pub fn fuel(&self) -> u32
        ensures { result ≡ self.now.fuel }
    {
        self.fuel
    }

    /// Changes the fuel that is left.
    #[inline(always)]
    pub fn set_fuel(&mut self, fuel: u32)
        ensures { self.new ≡ record self.old { fuel = fuel } }
    {
        self.fuel = fuel;
    }
}
