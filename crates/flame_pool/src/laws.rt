//! Laws of choices. Each function is its contract: it computes nothing.

ghost use Rattle.flame_pool.specs.PoolLaws.{ChoiceIsFirstOut, FirstIsChosenPlace, PlaceIsChoice, TakersByPlace, WhoseAreTakers};

/// The function that an agent takes is the first of the functions out of its state whose condition holds. With these
/// functions and the model's conditions, the place that is chosen is that of the agent's choice, those who chose a
/// function's place are its takers, and all others rest on. So it is also by the places that the model gives alone.
pub fn choices_are_as_written()
    ensures first { ChoiceIsFirstOut }
    ensures place { PlaceIsChoice }
    ensures takers { WhoseAreTakers }
    ensures first_place { FirstIsChosenPlace }
    ensures takers_by_place { TakersByPlace }
{}
