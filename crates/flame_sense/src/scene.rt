//! What a function has before it while it runs, and what it changes.

ghost use Rattle.std.specs.Prelude.{◌≡◌, ◌≢◌, ◌-◌, ℕ, [], Option, option_map, slice_index_or};
ghost use Rattle.std.specs.Str.{bytes_eq};
ghost use Rattle.flame_spec.specs.Definitions.{helpers};
ghost use Rattle.flame_spec.specs.declared.models.Variable.{Variable as Declared};
ghost use Rattle.flame_spec.specs.Conditions.{number_at};
ghost use Rattle.flame_spec.specs.ExpressionFaults.{member_read};
ghost use Rattle.flame_spec.specs.Lists.{numbered_where};
ghost use Rattle.flame_spec.specs.LookUps.{constant_named};
ghost use Rattle.flame_spec.specs.Scopes.{memory_at, messages_at, given_at};
ghost use Rattle.flame_meaning.specs.Scenes.{local_value, value_given, value_found, named, array_named, got, row_over, row_read};
ghost use Rattle.flame_meaning.specs.Statements.{loop_currents};
ghost use Rattle.flame_meaning.specs.HelperCalls.{helper_scene, calls_within};
ghost use Rattle.flame_sense.specs.StandsFor.{rows_seen, currents_found, within_reach, is_written, span_of, message_of, context_seen, scene_seen, progress_seen, currents, visible, IsNewest};

use crate::words::{Form, Span, span_where};
use flame_rows::Row;
use flame_spec::{AgentType, Born, Function, Input, MessageType, Model, Sent, Unit, Variable};
use std::alloc::Global;

/// A function of the model, with its type and the number of its type.
#[derive(Clone, Copy)]
pub(crate) struct Place<'a> {
    pub(crate) number: usize,
    pub(crate) agent: &'a AgentType,
    pub(crate) function: &'a Function,
}

/// What a body has before it and does not change.
#[derive(Clone, Copy)]
pub(crate) struct Scene<'a, 'b> {
    pub(crate) alloc: Global,
    pub(crate) model: &'a Model,
    pub(crate) units: &'a [Unit],
    /// The function whose body it is; a helper is none.
    pub(crate) runs: Option<Place<'a>>,
    pub(crate) constants: &'a Row,
    /// The number of the iteration.
    pub(crate) iteration: i32,
    /// The rows of each input, in order.
    pub(crate) readings: &'b [Vec<&'a Row>],
    /// How many calls may be opened inside one another.
    pub(crate) left: u32,
}

/// Where the open message loops stand.
#[derive(Clone, Copy)]
pub(crate) enum Open<'a> {
    /// No message loop is open.
    Nothing,
    /// The innermost loop, over the message of this number, stands at this row; then the loops around it.
    Over(usize, &'a Row, &'a Open<'a>),
}

/// A local.
#[derive(Clone, Copy)]
pub(crate) struct Local<'a> {
    pub(crate) name: &'a str,
    pub(crate) value: i32,
}

/// What a body changes.
#[derive(Drop)]
pub(crate) struct Progress<'a> {
    pub(crate) memory: Vec<i32>,
    /// The visible locals, the newest last.
    pub(crate) locals: Vec<Local<'a>>,
    /// The messages in the order in which they were added.
    pub(crate) sent: Vec<Sent>,
    /// The births in the order in which they were added.
    pub(crate) born: Vec<Born>,
    pub(crate) fuel: u32,
}

/// The number in a column of a row, 0 past its end.
pub(crate) fn number_at(row: &[i32], column: usize) -> i32
    ensures { result ≡ number_at row.now column }
{
    row.get(column).copied().unwrap_or(0)
}

/// The number in this column of a row, 0 past its end; the column is one as far as places can be counted.
pub(crate) fn number_near(row: &[i32], column: usize) -> i32
    ensures { (exact : ℕ) → column ≡ within_reach exact → result ≡ number_at row.now exact }
{
    number_at(row, column)
}

/// The number of a row where a variable begins; of no variable 0.
pub(crate) fn number_of(found: Option<Span>, row: &[i32]) -> i32
    ensures { (variable : Option (ℕ × Declared)) → found ≡ option_map span_of variable
        → result ≡ value_found variable row.now }
{
    match found {
        None => 0,
        Some(span) => number_at(row, span.column),
    }
}

/// The place of the newest local of this name.
pub(crate) fn newest(word: &str, locals: &[Local<'_>]) -> Option<usize>
    ensures { IsNewest word.now locals.now result }
{
    let mut at = locals.len();
    while at > 0 {
        at -= 1;
        if locals[at].name == word {
            return Some(at);
        }
    }
    None
}

/// The value of the newest local of this name.
#[tactic(auto, using(crate::proofs::Locals::value_there))]
fn local_value(word: &str, locals: &[Local<'_>]) -> Option<i32>
    ensures { result ≡ local_value word.now (visible locals.now) }
{
    match newest(word, locals) {
        Some(place) => Some(locals[place].value),
        None => None,
    }
}

/// The first message type that the word names in this way, with its number.
pub(crate) fn message_where<'a>(
    form: Form,
    word: &str,
    messages: &'a [MessageType],
) -> Option<(usize, &'a MessageType)>
    ensures { option_map message_of result
        ≡ numbered_where (λ message. is_written form word.now message.name) messages.now }
{
    for (number, message) in messages.iter().enumerate() {
        if form.is_written(word, message.name.as_str()) {
            return Some((number, message));
        }
    }
    None
}

impl<'a, 'b> Scene<'a, 'b> {
    /// What a helper has before it that is called here.
    pub(crate) fn in_helper(&self) -> Scene<'a, 'b>
        requires { self.now.left ≢ 0 }
        ensures scene { scene_seen result Open.Nothing ≡ helper_scene self.now.model.now
            (helpers self.now.model.now self.now.units.now) self.now.constants.now self.now.iteration
            (calls_within (self.now.left - 1) self.now.model.now (helpers self.now.model.now self.now.units.now)
            self.now.constants.now self.now.iteration) }
        ensures left { result.left ≡ self.now.left - 1 }
        ensures units { result.units.now ≡ self.now.units.now }
    {
        Scene {
            alloc: self.alloc,
            model: self.model,
            units: self.units,
            runs: None,
            constants: self.constants,
            iteration: self.iteration,
            readings: &[],
            left: self.left - 1,
        }
    }

    /// The rows that the function reads by the input of this number.
    fn reading(&self, input: usize) -> &'b [&'a Row]
        ensures { rows_seen result.now ≡ slice_index_or (scene_seen self.now Open.Nothing).readings input [] }
    {
        match self.readings.get(input) {
            Some(rows) => rows.as_slice(),
            None => &[],
        }
    }

    /// The rows that a loop named so goes over, with the number of their message.
    pub(crate) fn loop_rows(&self, word: &str) -> Option<(usize, &'b [&'a Row])>
        ensures { currents_found result ≡ loop_currents word.now (scene_seen self.now Open.Nothing) }
    {
        let place = self.runs?;
        let (number, message) = message_where(Form::Capitals, word, self.messages())?;
        let input = input_of(message.name.as_str(), place.function.inputs.items())?;
        Some((number, self.reading(input)))
    }

    /// The memory variables that the body sees.
    pub(crate) fn memory(&self) -> &'a [Variable]
        ensures { result.now ≡ memory_at (context_seen self.now) }
    {
        match self.runs {
            None => &[],
            Some(place) => place.agent.memory.items(),
        }
    }

    /// The messages that the body may read.
    pub(crate) fn messages(&self) -> &'a [MessageType]
        ensures { result.now ≡ messages_at (context_seen self.now) }
    {
        match self.runs {
            None => &[],
            Some(_) => self.model.messages.items(),
        }
    }

    /// The value of the constant whose name in capitals is the word.
    fn constant_value(&self, word: &str) -> Option<i32>
        ensures { result ≡ option_map (number_at self.now.constants.now)
            (option_map (λ found. found.0) (constant_named self.now.model.now.constants word.now)) }
    {
        let names = self.model.constants.items();
        for (number, name) in names.iter().enumerate() {
            if Form::Capitals.is_written(word, name.as_str()) {
                return Some(number_at(self.constants.values(), number));
            }
        }
        None
    }

    /// The value of what the model gives to a word; of nothing 0.
    fn value_given(&self, word: &str, s: &Progress<'_>) -> i32
        ensures { result
            ≡ value_given (given_at (context_seen self.now) word.now) (scene_seen self.now Open.Nothing)
            (progress_seen s.now) }
    {
        match span_where(Form::Capitals, word, self.memory()) {
            Some(span) => number_of(Some(span), s.memory.as_slice()),
            None => match self.constant_value(word) {
                Some(value) => value,
                None => {
                    if "iteration_loop" == word {
                        self.iteration
                    } else {
                        0
                    }
                }
            },
        }
    }

    /// The value of a name; 0 where it is none.
    pub(crate) fn named(&self, word: &str, s: &Progress<'_>) -> i32
        ensures { result ≡ named word.now (scene_seen self.now Open.Nothing) (progress_seen s.now) }
    {
        match local_value(word, s.locals.as_slice()) {
            Some(value) => value,
            None => self.value_given(word, s),
        }
    }

    /// Where the array stands that a name is.
    pub(crate) fn array_named(&self, word: &str, s: &Progress<'_>) -> Option<Span>
        ensures { result
            ≡ option_map span_of (array_named word.now (scene_seen self.now Open.Nothing) (progress_seen s.now)) }
    {
        match local_value(word, s.locals.as_slice()) {
            Some(_) => None,
            None => span_where(Form::Capitals, word, self.memory()),
        }
    }

    /// The value of `get_x()`.
    pub(crate) fn got(&self, word: &str, s: &Progress<'_>) -> i32
        ensures { result ≡ got word.now (scene_seen self.now Open.Nothing) (progress_seen s.now) }
    {
        number_of(
            span_where(Form::Get, word, self.memory()),
            s.memory.as_slice(),
        )
    }

    /// Where the variable stands that `m_message->x` reads.
    pub(crate) fn member_read(&self, word: &str, variable: &str) -> Option<Span>
        ensures { result ≡ option_map span_of (member_read (context_seen self.now) word.now variable.now) }
    {
        match message_where(Form::Row, word, self.messages()) {
            None => None,
            Some((_, message)) => span_where(Form::Same, variable, message.variables.items()),
        }
    }

    /// The row that `m_message` reads; empty where no loop over m is open.
    pub(crate) fn row_read<'c>(&self, word: &str, open_loops: &Open<'c>) -> &'c [i32]
        ensures { result.now ≡ row_read word.now (scene_seen self.now open_loops.now) }
    {
        match message_where(Form::Row, word, self.messages()) {
            None => &[],
            Some((number, _)) => open_loops.row_over(number),
        }
    }
}

/// The number of the input that reads the message of this name.
fn input_of(name: &str, inputs: &[Input]) -> Option<usize>
    ensures { result
        ≡ option_map (λ found. found.0) (numbered_where (λ input. bytes_eq input.message name.now) inputs.now) }
{
    for (number, input) in inputs.iter().enumerate() {
        if input.message.as_str() == name {
            return Some(number);
        }
    }
    None
}

impl<'a> Open<'a> {
    /// The row of the innermost loop over the message of this number; empty where there is none.
    fn row_over(&self, message: usize) -> &'a [i32]
        ensures { result.now ≡ row_over message (currents self.now) }
    {
        let mut open_loops = self;
        while let Open::Over(over, row, outer) = open_loops {
            if *over == message {
                return row.values();
            }
            open_loops = outer;
        }
        &[]
    }
}
