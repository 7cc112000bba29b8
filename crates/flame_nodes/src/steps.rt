//! One function of an iteration, run by nodes.

ghost use Rattle.std.specs.Prelude.{◌≡◌, ◌<◌, ◌≤◌, ℕ, ℤ, List, IfOk, OnOk, length, map};
ghost use Rattle.std.specs.List.{All};
ghost use Rattle.flame_rows.specs.Bags.{ascending};
ghost use Rattle.flame_spec.specs.Before.{function_count};
ghost use Rattle.flame_index.specs.FrozenBoards.{shared_messages};
ghost use Rattle.flame_meaning.specs.Outcomes.{outcome, place_of};
ghost use Rattle.flame_world.specs.InputBoards.{boards_named};
ghost use Rattle.flame_world.specs.Iterations.{step as meant, unless_faulted};
ghost use Rattle.flame_world.specs.WorldFits.{FitsField};
ghost use Rattle.flame_events.specs.LegalEvents.{outputs_of};
ghost use Rattle.flame_field.specs.KeptFields.{field_of};
ghost use Rattle.flame_field.specs.KeptPools.{AreDealt};
ghost use Rattle.flame_round.specs.Choices.{choice_at};
ghost use Rattle.flame_round.specs.KeptRounds.{FitsRun, round_of};
ghost use Rattle.flame_nodes.specs.NodeLeavings.{AreLeftBy};
ghost use Rattle.flame_nodes.specs.NodePieces.{agents_in};
ghost use Rattle.flame_nodes.specs.NodeWork.{CanRun};

use crate::columns::parting_of;
use crate::laws::each_goes_to_one_node;
use crate::lefts::{Left, left_by};
use crate::pieces::pieces_of;
use crate::terms::Terms;
use crate::working::run_pieces;
use flame_field::{Field, share};
use flame_index::Frozen;
use flame_leaving::laws::parts_make_the_whole;
use flame_outside::Gate;
use flame_round::{Round, leave_chosen, route_of};
use flame_rows::{NoMemory, Row, Seq, Text};
use flame_spec_laws::names_differ;
use flame_world::{Piece, SimFault};
use std::alloc::Global;
use std::sync::{Arc, Wait};
use std::thread::Threads;

/// The nodes of an iteration: how many, what each calls just before it runs a piece, and by the variable of which name agents
/// are parted.
#[derive(Clone, Copy)]
pub(crate) struct Crew<'c, G: Gate> {
    pub gate: &'c G,
    pub nodes: u32,
    pub by: &'c Option<Text>,
}

/// What the agents of these pieces of a function leave, which nodes run.
fn leave_pieces<G: Gate, R: Threads + Wait + Sync>(
    rt: &R,
    alloc: Global,
    gate: &G,
    terms: Terms<'_>,
    pieces: Seq<Piece>,
) -> Result<Left, NoMemory>
    requires fit { All (CanRun terms) pieces }
    ensures { IfOk result (λ left. (function : ℕ) (all : List (List (List ℤ)))
        → All (λ piece. piece.function ≡ function) pieces
        → map shared_messages terms.entry.boards.now
        ≡ boards_named (place_of terms.entry.program.now function) terms.entry.program.now.model all
        → AreLeftBy terms.entry.iteration function (λ memory. outcome terms.entry.program.now function memory all
        terms.entry.constants.now terms.entry.iteration terms.entry.fuel) (outputs_of terms.entry.program.now.model function)
        (agents_in pieces) left) }
{
    let _accepted = terms.program.source();
    let shares = run_pieces(rt, alloc, gate, terms, pieces)?;
    left_by(alloc, shares.into_items())
}

/// What these agents leave that take the function of this type, with these boards of its inputs.
fn run<G: Gate, R: Threads + Wait + Sync>(
    rt: &R,
    alloc: Global,
    crew: &Crew<'_, G>,
    round: &Round<'_>,
    function: u32,
    agent: u32,
    takers: Vec<Row>,
    boards: Vec<Arc<Frozen>>,
) -> Result<Left, NoMemory>
    requires some { 1 ≤ crew.now.nodes }
    requires fits { FitsRun round.now.program.now.model function round.now.constants.now
        (map shared_messages boards.items) takers.items }
    ensures { IfOk result (λ left. (all : List (List (List ℤ)))
        → map shared_messages boards.items
        ≡ boards_named (place_of round.now.program.now function) round.now.program.now.model all
        → AreLeftBy round.now.iteration function (λ memory. outcome round.now.program.now function memory all
        round.now.constants.now round.now.iteration round.now.fuel) (outputs_of round.now.program.now.model function)
        (ascending takers.items) left) }
{
    parts_make_the_whole();
    each_goes_to_one_node();
    let parting = parting_of(crew.by, round.program, agent)?;
    let pieces = pieces_of(alloc, function, takers, parting, crew.nodes)?;
    let boards = Seq::of(boards);
    let terms = Terms {
        program: round.program,
        constants: round.constants,
        boards: &boards,
        iteration: round.iteration,
        fuel: round.fuel,
    };
    leave_pieces(rt, alloc, crew.gate, terms, pieces)
}

/// The function runs for all that take it (FLAME User Manual), parted among the nodes: the fault of the least of them that faulted,
/// and else they have moved. After a fault, and after `NoMemory`, the field is of no further use.
pub(crate) fn step<G: Gate, R: Threads + Wait + Sync>(
    rt: &R,
    alloc: Global,
    crew: &Crew<'_, G>,
    round: &Round<'_>,
    function: u32,
    field: &mut Field,
) -> Result<Option<SimFault>, NoMemory>
    requires some { 1 ≤ crew.now.nodes }
    requires there { function < function_count round.now.program.now.model }
    requires known { length round.now.constants.now ≡ length round.now.program.now.model.constants }
    requires fits { FitsField round.now.program.now.model (field_of field.old) }
    requires dealt { AreDealt (choice_at round.now.program.now.model round.now.iteration) field.old.pools }
    ensures dealt { OnOk result (AreDealt (choice_at round.now.program.now.model round.now.iteration) field.new.pools) }
    ensures stepped { IfOk result (λ fault. unless_faulted fault (field_of field.new)
        ≡ meant (round_of round.now) function (field_of field.old)) }
{
    names_differ();
    let _accepted = round.program.source();
    let route = route_of(round, function);
    let takers = leave_chosen(alloc, round, function, route, &mut field.pools)?;
    let boards = share(alloc, &mut field.boards, route.inputs.items(), round.wants)?;
    let left = run(
        rt,
        alloc,
        crew,
        round,
        function,
        route.agent,
        takers,
        boards,
    )?;
    let Left {
        survivors,
        sent,
        born,
        fault,
    } = left;
    if fault.is_some() {
        return Ok(fault);
    }
    field.settle(alloc, route.agent, route.to, survivors, sent, born)?;
    Ok(None)
}
