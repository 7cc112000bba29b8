//! Paths through the orders of events.

use flame_core::{Core, StepFault};
use flame_events::Event;
use flame_rows::NoMemory;
use std::alloc::{AllocError, Global};

/// The most events of an order.
const LONGEST: usize = 100000;

/// Which of the events that were legal came, and how many stand behind it.
#[derive(Clone, Copy)]
struct Choice {
    taken: usize,
    left: usize,
}

/// The choices among legal events, one after another, that an order begins with; it goes on by the first event of all.
#[derive(Drop)]
pub(crate) struct Path {
    choices: Vec<Choice>,
}

/// Adds the event, where it is legal.
fn add(legal: &mut Vec<Event>, core: &Core<'_>, event: Event) -> Result<(), AllocError> {
    if core.allows(event) {
        legal.push(event)?;
    }
    Ok(())
}

/// Adds the legal events of a piece.
fn add_of_piece(
    legal: &mut Vec<Event>,
    core: &Core<'_>,
    messages: u32,
    function: u32,
    piece: u32,
) -> Result<(), AllocError> {
    add(legal, core, Event::Agent(function, piece))?;
    for message in 0..messages {
        add(legal, core, Event::HandIn(function, piece, message))?;
    }
    Ok(())
}

/// Adds the legal events of a function.
fn add_of_function(
    legal: &mut Vec<Event>,
    core: &Core<'_>,
    messages: u32,
    function: u32,
) -> Result<(), AllocError> {
    add(legal, core, Event::Open(function))?;
    for piece in 0..core.pieces(function) {
        add_of_piece(legal, core, messages, function, piece)?;
    }
    add(legal, core, Event::Shut(function))
}

/// As a number of 32 bits.
fn number(n: usize) -> Result<u32, AllocError> {
    u32::try_from(n).map_err(|_| -> AllocError { AllocError })
}

/// The legal events: those of each function and its pieces, then those of boards.
fn legal_events(alloc: Global, core: &Core<'_>) -> Result<Vec<Event>, AllocError> {
    let program = core.program();
    let messages = number(program.source().model.messages.len())?;
    let mut legal = Vec::new(alloc);
    for function in 0..number(program.functions())? {
        add_of_function(&mut legal, core, messages, function)?;
    }
    for message in 0..messages {
        add(&mut legal, core, Event::Freeze(message))?;
    }
    Ok(legal)
}

impl Path {
    /// The path of the first order.
    pub(crate) fn new(alloc: Global) -> Path {
        Path {
            choices: Vec::new(alloc),
        }
    }

    /// Which of so many events comes at this place of the order.
    fn choice(&mut self, place: usize, events: usize) -> Result<usize, AllocError> {
        if let Some(choice) = self.choices.get(place) {
            return Ok(choice.taken);
        }
        self.choices.push(Choice {
            taken: 0,
            left: events.saturating_sub(1),
        })?;
        Ok(0)
    }

    /// The next event of the order comes, at this place of it; none where the core is complete or no event is legal.
    fn go(
        &mut self,
        alloc: Global,
        core: &mut Core<'_>,
        place: usize,
    ) -> Result<Option<Event>, NoMemory> {
        if core.complete() {
            return Ok(None);
        }
        let legal = legal_events(alloc, core)?;
        if legal.is_empty() {
            return Ok(None);
        }
        let taken = self.choice(place, legal.len())?;
        let Some(event) = legal.get(taken).copied() else {
            return Ok(None);
        };
        match core.step(event) {
            Ok(()) => Ok(Some(event)),
            Err(StepFault::Illegal) => Ok(None),
            Err(StepFault::NoMemory) => Err(NoMemory),
        }
    }

    /// The order comes. Gives its events.
    pub(crate) fn follow(
        &mut self,
        alloc: Global,
        core: &mut Core<'_>,
    ) -> Result<Vec<Event>, NoMemory> {
        let mut events = Vec::new(alloc);
        for place in 0..LONGEST {
            match self.go(alloc, core, place)? {
                Some(event) => events.push(event)?,
                None => return Ok(events),
            }
        }
        Ok(events)
    }

    /// Goes on to the next order: the last choice behind which an event stands takes that one. Tells whether there is one.
    pub(crate) fn turn(&mut self) -> Result<bool, AllocError> {
        for _choice in 0..self.choices.len() {
            let Some(choice) = self.choices.pop() else {
                return Ok(false);
            };
            if let Some(left) = choice.left.checked_sub(1) {
                let taken = choice.taken.saturating_add(1);
                self.choices.push(Choice { taken, left })?;
                return Ok(true);
            }
        }
        Ok(false)
    }
}
