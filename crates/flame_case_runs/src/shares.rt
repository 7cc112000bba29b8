//! Shares of pieces, by what functions mean.

ghost use Rattle.std.specs.Prelude.{◌≡◌, ◌++◌, List, ℤ, [], IfOk, OnOk, map, slice_index_or};
ghost use Rattle.std.specs.List.{cons_option, filter_map};
ghost use Rattle.flame_rows.specs.Bags.{ascending};
ghost use Rattle.flame_spec.specs.declared.outcomes.Outcome.TheVariants.{Faulted};
ghost use Rattle.flame_spec.specs.Lists.{first};
ghost use Rattle.flame_meaning.specs.Outcomes.{place_of, outputs_at};
ghost use Rattle.flame_index.specs.FrozenBoards.{shared_messages};
ghost use Rattle.flame_world.specs.AgentRuns.{born_by, born_from, fault_by, kept, messages_of, sent_by, sent_from};
ghost use Rattle.flame_world.specs.InputBoards.{boards_named};
ghost use Rattle.flame_world.specs.Meaning.{outcome_under, part_for};
ghost use Rattle.flame_world.specs.Settings.{boards_of};
ghost use Rattle.flame_world.specs.Shares.{piece_of, setting_of};

use flame_index::Frozen;
use flame_program::Program;
use flame_rows::{Bag, NoMemory, Row, Seq};
use flame_sense::evaluate;
use flame_spec::{Born, Effect, Fault, Outcome, Sent};
use flame_world::{Part, Piece, Rest, Setting, Share, SimFault};
use std::alloc::Global;
use std::sync::Arc;

/// The messages that the inputs of the function read, by number.
pub(crate) fn inputs_of<'a>(program: &'a Program, function: u32) -> &'a [u32]
    ensures { (boards : List (List (List ℤ))) → map (λ message. slice_index_or boards message []) result.now
        ≡ boards_named (place_of program.now function) program.now.model boards }
{
    match program.routes().routes.items().get(function as usize) {
        Some(route) => route.inputs.items(),
        None => &[],
    }
}

/// The messages that the function outputs, by number.
fn outputs_of<'a>(program: &'a Program, function: u32) -> &'a [u32]
    ensures { result.now ≡ outputs_at (place_of program.now function) program.now.model }
{
    match program.routes().routes.items().get(function as usize) {
        Some(route) => route.outputs.items(),
        None => &[],
    }
}

/// A copy of the board of this message, which is empty where there is none.
fn board_of(alloc: Global, boards: &[Bag], message: u32) -> Result<Bag, NoMemory>
    ensures { IfOk result (λ board. board ≡ slice_index_or boards.now message []) }
{
    match boards.get(message as usize) {
        Some(board) => board.copy(),
        None => Ok(Bag::empty(alloc)),
    }
}

/// The boards of these messages, to be read.
fn boards_in(alloc: Global, boards: &[Bag], messages: &[u32]) -> Result<Vec<Arc<Frozen>>, NoMemory>
    ensures { IfOk result (λ read. map shared_messages read.items
        ≡ map (λ message. slice_index_or boards.now message []) messages.now) }
{
    let mut read = Vec::new(alloc);
    for message in messages {
        let board = board_of(alloc, boards, *message)?;
        read.push(Arc::new(alloc, Frozen::of(board))?)?;
    }
    Ok(read)
}

/// The boards that the inputs of the function name, of these of all messages.
pub(crate) fn boards_read(
    alloc: Global,
    program: &Program,
    function: u32,
    boards: &Seq<Bag>,
) -> Result<Seq<Arc<Frozen>>, NoMemory>
    ensures { IfOk result (λ read. map shared_messages read
        ≡ boards_named (place_of program.now function) program.now.model boards.now) }
{
    let read = boards_in(alloc, boards.items(), inputs_of(program, function))?;
    Ok(Seq::of(read))
}

/// What agents leave, one after another.
#[derive(Drop)]
struct Left {
    /// The memories of those that live on.
    kept: Vec<Row>,
    /// All messages, agent by agent.
    sent: Vec<Sent>,
    /// All births, agent by agent.
    born: Vec<Born>,
    /// All faults, agent by agent.
    faults: Vec<SimFault>,
}

/// The fault of an agent with this memory.
fn fault_of(iteration: i32, function: u32, memory: &Row, fault: Fault) -> Result<SimFault, NoMemory>
    ensures { IfOk result (λ sim. fault_by iteration function memory.now (Faulted fault) ≡ Some sim) }
{
    Ok(SimFault {
        iteration,
        function,
        cause: fault.cause,
        line: fault.line,
        memory: memory.copy()?,
    })
}

impl Left {
    fn nothing(alloc: Global) -> Left
        ensures kept { result.kept.items ≡ [] }
        ensures sent { result.sent.items ≡ [] }
        ensures born { result.born.items ≡ [] }
        ensures faults { result.faults.items ≡ [] }
    {
        Left {
            kept: Vec::new(alloc),
            sent: Vec::new(alloc),
            born: Vec::new(alloc),
            faults: Vec::new(alloc),
        }
    }

    /// Adds what a further agent left that ended.
    fn add_effect(&mut self, effect: Effect) -> Result<(), NoMemory>
        ensures kept { OnOk result (self.new.kept.items ≡ self.old.kept.items ++ cons_option effect.memory []) }
        ensures sent { OnOk result (self.new.sent.items ≡ self.old.sent.items ++ effect.sent) }
        ensures born { OnOk result (self.new.born.items ≡ self.old.born.items ++ effect.born) }
        ensures faults { OnOk result (self.new.faults.items ≡ self.old.faults.items) }
    {
        let Effect {
            memory,
            sent,
            born,
            ..
        } = effect;
        if let Some(memory) = memory {
            self.kept.push(memory)?;
        }
        let (mut sent, mut born) = (sent.into_items(), born.into_items());
        self.sent.append(&mut sent)?;
        self.born.append(&mut born)?;
        Ok(())
    }

    /// Adds what a further agent of this memory left.
    fn add(
        &mut self,
        iteration: i32,
        function: u32,
        memory: &Row,
        outcome: Outcome,
    ) -> Result<(), NoMemory>
        ensures kept { OnOk result (self.new.kept.items ≡ self.old.kept.items ++ cons_option (kept outcome) []) }
        ensures sent { OnOk result (self.new.sent.items ≡ self.old.sent.items ++ sent_by outcome) }
        ensures born { OnOk result (self.new.born.items ≡ self.old.born.items ++ born_by outcome) }
        ensures faults { OnOk result (self.new.faults.items
            ≡ self.old.faults.items ++ cons_option (fault_by iteration function memory.now outcome) []) }
    {
        match outcome {
            Outcome::Ended(effect) => {
                self.add_effect(effect)?;
                Ok(())
            }
            Outcome::Faulted(fault) => {
                let fault = fault_of(iteration, function, memory, fault)?;
                self.faults.push(fault)?;
                Ok(())
            }
        }
    }
}

/// What these agents leave that run the function, over these boards of all messages.
fn left_by(
    alloc: Global,
    setting: &Setting<'_>,
    boards: &Seq<Bag>,
    function: u32,
    agents: &[Row],
) -> Result<Left, NoMemory>
    requires { boards_of setting.now
        ≡ boards_named (place_of setting.now.source.now function) setting.now.source.now.model boards.now }
    ensures kept { IfOk result (λ left. left.kept.items
        ≡ filter_map (λ memory. kept (outcome_under setting.now function memory)) agents.now) }
    ensures sent { IfOk result (λ left. left.sent.items ≡ sent_from (outcome_under setting.now function) agents.now) }
    ensures born { IfOk result (λ left. left.born.items ≡ born_from (outcome_under setting.now function) agents.now) }
    ensures faults { IfOk result (λ left. left.faults.items
        ≡ filter_map (λ memory. fault_by setting.now.iteration function memory
        (outcome_under setting.now function memory))
        agents.now) }
{
    let mut left = Left::nothing(alloc);
    for memory in agents {
        let outcome = evaluate(
            alloc,
            setting.source,
            function,
            memory,
            boards,
            setting.constants,
            setting.iteration,
            setting.fuel,
        )?;
        left.add(setting.iteration, function, memory, outcome)?;
    }
    Ok(left)
}

/// The messages of this type.
fn rows_of(alloc: Global, sent: &[Sent], message: u32) -> Result<Vec<Row>, NoMemory>
    ensures { IfOk result (λ rows. rows.items ≡ messages_of sent.now message) }
{
    let mut rows = Vec::new(alloc);
    for one in sent {
        if one.message == message {
            rows.push(one.row.copy()?)?;
        }
    }
    Ok(rows)
}

/// The part of the piece for this message.
fn part_of(alloc: Global, piece: &Piece, sent: &[Sent], message: u32) -> Result<Part, NoMemory>
    ensures { IfOk result (λ part. part ≡ part_for piece.now sent.now message) }
{
    Ok(Part {
        function: piece.function,
        number: piece.number,
        message,
        rows: Bag::of_rows(rows_of(alloc, sent, message)?)?,
    })
}

/// The part of the piece for each of these messages.
fn parts_of(
    alloc: Global,
    piece: &Piece,
    sent: &[Sent],
    messages: &[u32],
) -> Result<Vec<Part>, NoMemory>
    ensures { IfOk result (λ parts. parts.items ≡ map (part_for piece.now sent.now) messages.now) }
{
    let mut parts = Vec::new(alloc);
    for message in messages {
        parts.push(part_of(alloc, piece, sent, *message)?)?;
    }
    Ok(parts)
}

/// The first of these faults.
fn first_of(faults: Vec<SimFault>) -> Option<SimFault>
    ensures { result ≡ first faults.items }
{
    faults.into_iter().next()
}

/// The share of this piece under this setting, which has those of these boards of all messages that the function's
/// inputs name: what the source means for the agents of the piece.
pub(crate) fn share_of<'a>(
    alloc: Global,
    program: &Program,
    setting: Setting<'a>,
    boards: &Seq<Bag>,
    piece: Piece,
) -> Result<Share<'a>, NoMemory>
    requires source { setting.source.now ≡ program.now }
    requires boards { boards_of setting
        ≡ boards_named (place_of setting.source.now piece.function) setting.source.now.model boards.now }
    ensures setting { IfOk result (λ share. setting_of share ≡ setting.entry) }
    ensures piece { IfOk result (λ share. piece_of share ≡ piece) }
{
    let left = left_by(alloc, &setting, boards, piece.function, piece.agents.rows())?;
    let outputs = outputs_of(program, piece.function);
    let parts = parts_of(alloc, &piece, left.sent.as_slice(), outputs)?;
    let rest = Rest {
        survivors: Bag::of_rows(left.kept)?,
        born: Seq::of(left.born),
        fault: first_of(left.faults),
    };
    Ok(Share::new(setting, piece, rest, Seq::of(parts)))
}
