//! Starts.

ghost use Rattle.std.specs.Prelude.{◌≡◌, pos, ◌+ℤ◌, int_le, IfSome};
ghost use Rattle.flame_starts.specs.HeldStarts.{HoldsStart};

use flame_popfile::Start;
use flame_program::Program;
use flame_tokens::{Population, read};
use flame_world::World;
use std::alloc::Global;

/// Whether so many iterations may follow that of this number.
fn leaves_some(itno: i32, turns: u32) -> bool
    ensures { result ≡ int_le (itno +ℤ pos turns) (pos 2147483647) }
{
    i64::from(itno) + i64::from(turns) <= 2147483647
}

/// The start that a population's bytes hold for the model of a program, from which `turns` iterations are to follow, where they
/// write a population as a writer does (`flame_tokens::read`) and the number of the last iteration is 2147483647 at most:
/// serde_json reads the bytes as a value, which is a population without faults, and this is the start that it holds. The value
/// itself is not made. `None` says nothing: the bytes are written in another way, or are no such population, or memory was not
/// found.
pub fn start(alloc: Global, bytes: &[u8], program: &Program, turns: u32) -> Option<Start>
    ensures { IfSome result (HoldsStart program.now.model turns bytes.now) }
{
    let Population {
        itno,
        constants,
        agents,
    } = read(alloc, bytes, &program.source().model)?;
    if !leaves_some(itno, turns) {
        return None;
    }
    Some(Start {
        itno,
        world: World { constants, agents },
    })
}
