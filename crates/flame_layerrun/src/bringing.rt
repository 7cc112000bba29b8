//! What the agents of a layer leave besides messages goes where it belongs.

ghost use Rattle.std.specs.Prelude.{◌≡◌, ◌<◌, ℕ, ℤ, List, IfOk, OnOk, length, map, option_map};
ghost use Rattle.std.specs.Option.{option_or};
ghost use Rattle.std.specs.List.{All};
ghost use Rattle.flame_rows.specs.Bags.{ascending};
ghost use Rattle.flame_spec.specs.Before.{function_count};
ghost use Rattle.flame_world.specs.Fields.{Field as Standing, HasPools};
ghost use Rattle.flame_world.specs.declared.faults.SimFault.{SimFault as Told};
ghost use Rattle.flame_field.specs.KeptFields.{field_of};
ghost use Rattle.flame_field.specs.KeptPools.{AreDealt};
ghost use Rattle.flame_round.specs.KeptRounds.{round_of};
ghost use Rattle.flame_layers.specs.LayerFields.{brought_by_all, first_stop, rank_of};
ghost use Rattle.flame_lanes.specs.LayerGains.{AreGains};

use crate::openings::Reading;
use flame_field::Field;
use flame_lanes::Gain;
use flame_layers::Stop;
use flame_round::{Round, route_of};
use flame_rows::NoMemory;
use flame_world::SimFault;
use std::alloc::Global;

/// Where the iteration stops: where it did so far, or else where a function of this rank has this fault.
fn first(stop: Option<Stop>, rank: u32, fault: Option<SimFault>) -> Option<Stop>
    ensures { result ≡ option_or stop (option_map (λ (fault : Told). record { rank = rank; fault = fault }) fault) }
{
    match stop {
        Some(stop) => Some(stop),
        None => match fault {
            Some(fault) => Some(Stop { rank, fault }),
            None => None,
        },
    }
}

/// Survivors of these functions arrive and births are set aside, function by function: where the first of them stops the
/// iteration that does. The functions stand by rank. After `NoMemory` the field is of no further use.
pub(crate) fn bring_all(
    alloc: Global,
    round: &Round<'_>,
    readings: Vec<Reading>,
    gains: Vec<Gain>,
    field: &mut Field,
) -> Result<Option<Stop>, NoMemory>
    requires there { All (λ reading. reading.function < function_count round.now.program.now.model) readings.items }
    requires ranks { All (λ reading. reading.rank ≡ rank_of round.now.program.now.model reading.function) readings.items }
    requires fits { HasPools round.now.program.now.model (field_of field.old) }
    ensures field { OnOk result ((read : Standing) (takers : List (List (List ℤ)))
        → AreGains (round_of round.now) read (map (λ reading. reading.function) readings.items) takers gains.items
        → field_of field.new ≡ record
        (brought_by_all (round_of round.now) read (map (λ reading. reading.function) readings.items) takers (field_of field.old))
        { boards = (field_of field.old).boards }) }
    ensures boards { OnOk result (field.new.boards ≡ field.old.boards) }
    ensures stop { IfOk result (λ stop. (read : Standing) (takers : List (List (List ℤ)))
        → AreGains (round_of round.now) read (map (λ reading. reading.function) readings.items) takers gains.items
        → All (λ agents. ascending agents ≡ agents) takers
        → stop ≡ first_stop (round_of round.now) read (map (λ reading. reading.function) readings.items) takers) }
    ensures dealt { (choose : ℕ → ℕ → List ℤ → ℕ) → AreDealt choose field.old.pools → AreDealt choose field.new.pools }
{
    let mut stop = None;
    for (reading, gain) in readings.into_iter().zip(gains) {
        let route = route_of(round, reading.function);
        field.bring(alloc, route.agent, route.to, gain.survivors, gain.born)?;
        stop = first(stop, reading.rank, gain.fault);
    }
    Ok(stop)
}
