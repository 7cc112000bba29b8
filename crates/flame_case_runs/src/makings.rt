//! How shares of cases are made: of a piece, over boards, of which a part may be changed.

ghost use Rattle.std.specs.Prelude.{◌≡◌, map};
ghost use Rattle.flame_index.specs.FrozenBoards.{shared_messages};
ghost use Rattle.flame_meaning.specs.Outcomes.{place_of};
ghost use Rattle.flame_world.specs.InputBoards.{boards_named};

use crate::beginnings::Beginning;
use crate::changes::Change;
use crate::shares::{boards_read, inputs_of, share_of};
use flame_index::Frozen;
use flame_program::Program;
use flame_rows::{Bag, NoMemory, Row, Seq};
use flame_world::{Piece, Setting, Share};
use std::alloc::Global;
use std::sync::Arc;

/// What a share is made from: its piece, and a board for each message.
#[derive(Drop)]
pub(crate) struct Making<'a> {
    program: &'a Program,
    piece: Piece,
    constants: Row,
    boards: Vec<Bag>,
    iteration: i32,
    fuel: u32,
}

impl<'a> Making<'a> {
    /// From this piece and these boards, and with what the iteration began.
    pub(crate) fn new(
        begun: &Beginning<'a>,
        piece: Piece,
        boards: Vec<Bag>,
    ) -> Result<Making<'a>, NoMemory> {
        Ok(Making {
            program: begun.program,
            piece,
            constants: begun.world.constants.copy()?,
            boards,
            iteration: begun.terms.iteration,
            fuel: begun.terms.fuel,
        })
    }

    /// The board of the input of this number is changed. Tells whether there is one.
    fn change_board(&mut self, input: u32, rows: Bag) -> bool {
        let inputs = inputs_of(self.program, self.piece.function);
        let Some(message) = inputs.get(input as usize) else {
            return false;
        };
        match self.boards.get_mut(*message as usize) {
            Some(board) => {
                *board = rows;
                true
            }
            None => false,
        }
    }

    /// A part of it is changed. Tells whether it has such a part.
    pub(crate) fn change(&mut self, change: Change) -> bool {
        match change {
            Change::Nothing => {}
            Change::Fuel(fuel) => self.fuel = fuel,
            Change::Iteration(iteration) => self.iteration = iteration,
            Change::Constants(constants) => self.constants = constants,
            Change::Agents(agents) => self.piece.agents = agents,
            Change::Board(input, rows) => return self.change_board(input, rows),
            Change::Pieces(_) => return false,
            Change::OfType(_, _) => return false,
        }
        true
    }

    /// What its share is of.
    pub(crate) fn made(self, alloc: Global) -> Result<Made<'a>, NoMemory> {
        let Making {
            program,
            piece,
            constants,
            boards,
            iteration,
            fuel,
        } = self;
        let all = Seq::of(boards);
        let read = boards_read(alloc, program, piece.function, &all)?;
        Ok(Made {
            program,
            piece,
            constants,
            all,
            read,
            iteration,
            fuel,
        })
    }
}

/// What a share is of: its piece, a board for each message, and those that its function reads.
#[derive(Drop)]
pub(crate) struct Made<'a> {
    program: &'a Program,
    piece: Piece,
    constants: Row,
    all: Seq<Bag>,
    read: Seq<Arc<Frozen>>,
    iteration: i32,
    fuel: u32,
    ghost reads: { map shared_messages read ≡ boards_named (place_of program.now piece.function) program.now.model all },
}

impl<'a> Made<'a> {
    /// Its share.
    pub(crate) fn share(&self, alloc: Global) -> Result<Share<'_>, NoMemory> {
        let setting = Setting {
            source: self.program.source(),
            constants: &self.constants,
            boards: &self.read,
            iteration: self.iteration,
            fuel: self.fuel,
        };
        let piece = Piece {
            function: self.piece.function,
            number: self.piece.number,
            agents: self.piece.agents.copy()?,
        };
        share_of(alloc, self.program, setting, &self.all, piece)
    }
}
