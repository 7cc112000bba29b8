//! Laws of iterations by layers. Each function is its contract: it computes nothing.

ghost use Rattle.flame_layers.specs.LayerLaws.{IterationsBegin, LayersLeadOn, LayersEnd, LayersFit, LeavingFits};

use flame_spec_laws::names_differ;

/// An iteration of an accepted source comes to its first layer, from layer to layer, and behind its last one to its end: where
/// the functions of each layer run side by side, as far as none of a lower rank faulted, it ends as the iteration does whose
/// functions run one after another, faults included. Each layer is a list of events, each legal when it comes.
pub fn layers_lead()
    ensures begin { IterationsBegin }
    ensures on { LayersLeadOn }
    ensures end { LayersEnd }
{
    names_differ();
}

/// What a layer finds fits the model, and so does what is left when takers of a function left their state.
pub fn layers_fit()
    ensures found { LayersFit }
    ensures left { LeavingFits }
{}
