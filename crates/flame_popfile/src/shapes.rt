//! Many rows of one form: what is written in each is made once, and each is written from its end.

ghost use Rattle.std.specs.Prelude.{◌≡◌, ◌<◌, ◌++◌, ◌||◌, ℤ, List, map, nat_lt, IfOk, OnOk};
ghost use Rattle.flame_popfile.specs.RowTexts.{object_text, agent_text};
ghost use Rattle.flame_popfile.specs.CommaTexts.{comma_where, behind, form_text, agent_head};
ghost use Rattle.flame_popfile.specs.TailTexts.{held};
ghost use Rattle.flame_popfile.specs.ObjectTexts.{written_agent};
ghost use Rattle.flame_popfile.specs.ShapeTexts.{shape_text};

use crate::fields::fields;
use crate::forms::Form;
use crate::objects::Object;
use crate::pieces::push_str;
use crate::puts::{clear, no_text, put_byte, put_comma, text_of};
use crate::tails::Tail;
use crate::values::{put_list, put_object};
use flame_rows::{NoMemory, Row};
use flame_spec::{AgentType, Variable};
use std::alloc::Global;

/// About how many numbers are written to one tail, before they are added.
const TOGETHER: usize = 64;

/// How rows of a form are written.
#[derive(Drop)]
pub(crate) enum Shape<'a> {
    /// As lists of their numbers.
    List,
    /// As such objects.
    Object(Object<'a>),
    /// As agents: such an object, whose head begins the agent, and a brace behind it.
    Agent(Object<'a>),
}

/// The shape of rows in this form.
fn shape_of<'a>(alloc: Global, form: Form<'a>) -> Result<Shape<'a>, NoMemory>
    ensures { IfOk result (λ shape. (row : List ℤ) → shape_text shape row ≡ form_text form.entry row) }
{
    match form {
        Form::List => Ok(Shape::List),
        Form::Object(variables) => object_shape(alloc, variables),
        Form::Agent(agent) => agent_shape(alloc, agent),
    }
}

/// The shape of objects of these variables.
fn object_shape<'a>(alloc: Global, variables: &'a [Variable]) -> Result<Shape<'a>, NoMemory>
    ensures { IfOk result (λ shape. (row : List ℤ) → shape_text shape row ≡ object_text variables.now row) }
{
    let fields = fields(alloc, variables)?;
    let mut head = Vec::new(alloc);
    push_str(&mut head, "{")?;
    Ok(Shape::Object(Object {
        head,
        variables,
        fields,
    }))
}

/// What stands before the variables of each agent of this type.
fn head_of(alloc: Global, agent: &AgentType) -> Result<Vec<u8>, NoMemory>
    ensures { IfOk result (λ head. head.items ≡ agent_head agent.now) }
{
    let mut head = Vec::new(alloc);
    push_str(&mut head, "{\"name\":\"")?;
    push_str(&mut head, agent.name.as_str())?;
    push_str(&mut head, "\",\"memory\":{")?;
    Ok(head)
}

/// The shape of agents of this type.
fn agent_shape<'a>(alloc: Global, agent: &'a AgentType) -> Result<Shape<'a>, NoMemory>
    ensures { IfOk result (λ shape. (row : List ℤ) → shape_text shape row ≡ agent_text agent.now row) }
{
    let variables = agent.memory.items();
    let fields = fields(alloc, variables)?;
    let head = head_of(alloc, agent)?;
    Ok(Shape::Agent(Object {
        head,
        variables,
        fields,
    }))
}

/// Puts an agent, such an object and a brace behind it, before the text.
fn put_agent(tail: &mut Tail, object: &Object<'_>, row: &[i32]) -> Result<(), NoMemory>
    ensures { OnOk result (held tail.new ≡ written_agent object.now row.now ++ held tail.old) }
{
    put_byte(tail, b'}')?;
    put_object(tail, object, row)?;
    Ok(())
}

/// Puts a row in this shape before the text.
fn put_row(tail: &mut Tail, shape: &Shape<'_>, row: &[i32]) -> Result<(), NoMemory>
    ensures { OnOk result (held tail.new ≡ shape_text shape.now row.now ++ held tail.old) }
{
    match shape {
        Shape::List => put_list(tail, row),
        Shape::Object(object) => put_object(tail, object, row),
        Shape::Agent(object) => put_agent(tail, object, row),
    }
}

/// Whether there is more before the row at this place.
fn has_before(more: bool, place: usize) -> bool
    ensures { result ≡ (more || nat_lt 0 place) }
{
    more || place > 0
}

/// Puts these rows before the text, each behind a comma, the first only where there is more before.
fn put_rows(tail: &mut Tail, shape: &Shape<'_>, rows: &[Row], more: bool) -> Result<(), NoMemory>
    ensures { OnOk result
        (held tail.new ≡ behind more (map (shape_text shape.now) rows.now) ++ held tail.old) }
{
    let mut left = rows.len();
    while left > 0 {
        left -= 1;
        put_row(tail, shape, rows[left].values())?;
        put_comma(tail, has_before(more, left))?;
    }
    Ok(())
}

/// Adds these rows by a tail, whose text is taken away before.
fn push_block(
    bytes: &mut Vec<u8>,
    tail: &mut Tail,
    shape: &Shape<'_>,
    rows: &[Row],
    more: bool,
) -> Result<(), NoMemory>
    ensures { OnOk result
        (bytes.new.items ≡ bytes.old.items ++ behind more (map (shape_text shape.now) rows.now)) }
{
    clear(tail);
    put_rows(tail, shape, rows, more)?;
    bytes.extend_from_slice(text_of(tail))?;
    Ok(())
}

/// How many rows, of which this is the first, have about so many numbers as are written to one tail.
fn together(rows: &[Row]) -> usize
    ensures { 0 < result }
{
    match rows.first() {
        Some(row) => 1 + TOGETHER / (1 + row.values().len()),
        None => 1,
    }
}

/// Adds these rows in this shape, each after a comma, the first only where there is more before.
fn push_blocks(
    bytes: &mut Vec<u8>,
    shape: &Shape<'_>,
    rows: &[Row],
    before: bool,
) -> Result<(), NoMemory>
    ensures { OnOk result
        (bytes.new.items ≡ bytes.old.items ++ behind before (map (shape_text shape.now) rows.now)) }
{
    let size = together(rows);
    let mut tail = no_text(*bytes.allocator())?;
    let mut more = before;
    let mut rest = rows;
    while rest.len() > 0 {
        let (block, others) = rest.split_at(size.min(rest.len()));
        push_block(bytes, &mut tail, shape, block, more)?;
        more = true;
        rest = others;
    }
    Ok(())
}

/// Adds these rows in this form, each after a comma, the first only where there is more before.
pub(crate) fn push_many(
    bytes: &mut Vec<u8>,
    form: Form<'_>,
    rows: &[Row],
    before: bool,
) -> Result<(), NoMemory>
    ensures { OnOk result
        (bytes.new.items ≡ bytes.old.items ++ behind before (map (form_text form.entry) rows.now)) }
{
    let shape = shape_of(*bytes.allocator(), form)?;
    push_blocks(bytes, &shape, rows, before)?;
    Ok(())
}
