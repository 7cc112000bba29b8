//! Which functions run in which layer.

ghost use Rattle.std.specs.Prelude.{◌≡◌, ◌<◌, ◌≤◌, ◌==◌, ◌∷◌, ◌++◌, [], ℕ, nat_lt, IfOk, OnOk, length, map, take, if◌then◌else◌};
ghost use Rattle.std.specs.List.{take_while};
ghost use Rattle.flame_spec.specs.declared.models.Model.{Model};
ghost use Rattle.flame_layers.specs.LayerFunctions.{runs_in_layer};
ghost use Rattle.flame_layerrun.specs.Schedules.{AreLayersOf, ranked_at, ranked_in};

use flame_layers::Stop;
use flame_program::Program;
use flame_rows::{NoMemory, number};
use flame_spec_laws::{orders, ranks};
use std::alloc::Global;

/// A function, by its rank.
#[derive(Clone, Copy, Debug)]
pub(crate) struct Ranked {
    /// Its place in model order.
    pub rank: u32,
    /// Its number, in document order.
    pub function: u32,
}

/// Makes room for the functions of this layer.
fn make_room(alloc: Global, layers: &mut Vec<Vec<Ranked>>, layer: u32) -> Result<(), NoMemory>
    ensures same { OnOk result ((other : ℕ) → ranked_at layers.new.items other ≡ ranked_at layers.old.items other) }
    ensures room { OnOk result (layer < length layers.new.items) }
    ensures longer { OnOk result (length layers.old.items ≤ length layers.new.items) }
{
    while layers.len() <= layer as usize {
        layers.push(Vec::new(alloc))?;
    }
    Ok(())
}

/// Adds a function to those of its layer.
fn add(
    alloc: Global,
    layers: &mut Vec<Vec<Ranked>>,
    layer: u32,
    ranked: Ranked,
) -> Result<(), NoMemory>
    ensures own { OnOk result ((other : ℕ) → ranked_at layers.new.items other
        ≡ ranked_at layers.old.items other ++ (if layer == other then ranked ∷ [] else [])) }
    ensures room { OnOk result (layer < length layers.new.items) }
    ensures longer { OnOk result (length layers.old.items ≤ length layers.new.items) }
{
    make_room(alloc, layers, layer)?;
    layers[layer as usize].push(ranked)?;
    Ok(())
}

/// The functions of each layer of the program, by rank.
pub(crate) fn by_layer(alloc: Global, program: &Program) -> Result<Vec<Vec<Ranked>>, NoMemory>
    ensures { IfOk result (λ layers. AreLayersOf program.now.model layers.items) }
{
    orders();
    ranks();
    let plan = program.plan();
    let mut layers = Vec::new(alloc);
    for (rank, function) in plan.order.items().iter().enumerate() {
        let ranked = Ranked {
            rank: number(rank)?,
            function: *function,
        };
        add(
            alloc,
            &mut layers,
            plan.layers.items()[*function as usize],
            ranked,
        )?;
    }
    Ok(layers)
}

/// How many stand in front that are of a lower rank than this.
fn count_lower(ranked: &[Ranked], rank: u32) -> usize
    ensures lower { result ≡ length (take_while (λ ranked. nat_lt ranked.rank rank) ranked.now) }
    ensures bound { result ≤ length ranked.now }
{
    ranked
        .iter()
        .take_while(|ranked| ranked.rank < rank)
        .count()
}

/// Those of these functions of a layer that are still run, which stand by rank: all, or where one faulted those of a lower rank.
pub(crate) fn still<'a>(ranked: &'a [Ranked], stop: &Option<Stop>) -> &'a [Ranked]
    ensures front { result.now ≡ take (length result.now) ranked.now }
    ensures functions { (model : Model) (layer : ℕ) → ranked.now ≡ ranked_in model layer
        → map (λ ranked. ranked.function) result.now ≡ runs_in_layer model layer stop.now }
{
    match stop {
        None => ranked,
        Some(stop) => &ranked[..count_lower(ranked, stop.rank)],
    }
}
