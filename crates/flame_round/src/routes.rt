//! Where the agents of a function rest, and who else leaves their state.

ghost use Rattle.std.specs.Prelude.{◌≡◌, ◌<◌, Some, slice_get};
ghost use Rattle.flame_spec.specs.Before.{function_count};
ghost use Rattle.flame_spec.specs.Choice.{functions_out};
ghost use Rattle.flame_spec.specs.Functions.{Place, functions};
ghost use Rattle.flame_round.specs.KeptRounds.{GoesBy};

use crate::rounds::Round;
use flame_route::Route;

/// The route of the function of this number.
pub fn route_of<'a>(round: &Round<'a>, function: u32) -> &'a Route
    requires { function < function_count round.now.program.now.model }
    ensures { GoesBy round.now.program.now.model function result.now }
{
    &round.program.routes().routes.items()[function as usize]
}

/// The functions out of the state that the function leaves which goes by this route.
pub fn out_of<'a>(round: &Round<'a>, function: u32, route: &Route) -> &'a [u32]
    requires { GoesBy round.now.program.now.model function route.now }
    ensures { (place : Place) → slice_get (functions round.now.program.now.model) function ≡ Some place
        → result.now ≡ functions_out round.now.program.now.model place.agent place.function.current }
{
    let leaving = &round.program.routes().leaving;
    leaving.items()[route.agent as usize].items()[route.from as usize].items()
}
