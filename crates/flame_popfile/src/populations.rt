//! Populations.

ghost use Rattle.std.specs.Prelude.{◌≡◌, [], IfOk, IfErr};
ghost use Rattle.serde_json.specs.View.{view};
ghost use Rattle.flame_spec.specs.FirstFaults.{FailsFirst};
ghost use Rattle.flame_world.specs.WorldFits.{FitsModel};
ghost use Rattle.flame_world.specs.WorldLaws.{IsWorldOf};
ghost use Rattle.flame_popfile.specs.PopulationFaults.{population_faults};
ghost use Rattle.flame_popfile.specs.PopulationStarts.{start_of};
ghost use Rattle.flame_popfile.specs.StartLaws.{LeavesRoom};

use crate::faults::PopFault;
use crate::starts::Start;
use crate::states::start_of;
use flame_program::Program;
use flame_rows::Fail;
use serde_json::Value;
use std::alloc::Global;

/// The start that a population's value holds for the model of a program, from which `turns` iterations are to follow: the
/// number of its iteration and its world (FLAME User Manual, in JSON). It is read in the version that the value names.
///
/// An entry of an object whose value is null counts as missing, and a key that the form does not name is passed over,
/// `boards` too. What is missing is 0 or empty. A whole number is a JSON number that is an integer of 64 bits, or a text of
/// an optional `-` and digits; a null that is a member of a list is none. In version 2 the environment lists exactly as
/// many numbers as there are constants, each row exactly as many as its type is wide, and no two members name one type.
///
/// The world has a value for each constant of the model, and for each agent type a bag of memories as wide as it declares,
/// with all numbers within int: runners ask for a world that fits so. The number is 0 at least, and that of the last
/// iteration 2147483647 at most.
///
/// `Fault` comes exactly where something is wrong somewhere, with the first such place: the root and the states, the
/// version, the number of the iteration, the environment, the agents, and then the limit of the iterations' numbers; the
/// keys of the environment and of a memory are walked in ascending order of their bytes. Names are looked up in hashed
/// tables, and the time is linear in the value but for the sorting of each type's agents. `NoMemory` is want of memory, and
/// comes also where 32 bits cannot hold the width of a row.
pub fn population(
    alloc: Global,
    value: &Value,
    program: &Program,
    turns: u32,
) -> Result<Start, Fail<PopFault>>
    ensures faultless { IfOk result (λ start. population_faults program.now.model turns (view value.now) ≡ []) }
    ensures start { IfOk result (λ start. start ≡ start_of program.now.model (view value.now)) }
    ensures fits { IfOk result (λ start. FitsModel program.now.model start.world) }
    ensures world { IfOk result (λ start. IsWorldOf program.now.model start.world) }
    ensures number { IfOk result (λ start. LeavesRoom turns start.itno) }
    ensures fault { IfErr result (FailsFirst (population_faults program.now.model turns (view value.now))) }
{
    start_of(alloc, value, &program.source().model, turns)
}
