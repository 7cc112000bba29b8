//! What is put before a text.

ghost use Rattle.std.specs.Prelude.{◌≡◌, ◌≤◌, [], ◌∷◌, ◌++◌, IfOk, OnOk};
ghost use Rattle.std.specs.Fmt.{decimal, signed_decimal};
ghost use Rattle.flame_popfile.specs.CommaTexts.{comma_where};
ghost use Rattle.flame_popfile.specs.TailTexts.{held};

use crate::tails::Tail;
use flame_rows::NoMemory;
use itoa::write_digits;
use std::alloc::Global;

/// How many bytes there is room for at first.
const ROOM: usize = 256;

/// How many digits a number of 32 bits has at most.
const DIGITS: usize = 10;

/// No text, with room before it.
pub(crate) fn no_text(alloc: Global) -> Result<Tail, NoMemory>
    ensures { IfOk result (λ tail. held tail ≡ []) }
{
    let mut bytes = Vec::new(alloc);
    bytes.resize(ROOM, 0)?;
    Ok(Tail { bytes, start: ROOM })
}

/// The text.
pub(crate) fn text_of(tail: &Tail) -> &[u8]
    ensures { result.now ≡ held tail.now }
{
    &tail.bytes[tail.start..]
}

/// Takes the text away.
pub(crate) fn clear(tail: &mut Tail)
    ensures { held tail.new ≡ [] }
{
    tail.start = tail.bytes.len();
}

/// Makes room for so many bytes before the text.
fn make_room(tail: &mut Tail, more: usize) -> Result<(), NoMemory>
    ensures held { held tail.new ≡ held tail.old }
    ensures room { OnOk result (more ≤ tail.new.start) }
{
    if more <= tail.start {
        return Ok(());
    }
    grow(tail, more)
}

/// The same, where there is no such room: moves the text to the end of more bytes than twice as many.
#[cold]
#[inline(never)]
fn grow(tail: &mut Tail, more: usize) -> Result<(), NoMemory>
    ensures held { held tail.new ≡ held tail.old }
    ensures room { OnOk result (more ≤ tail.new.start) }
{
    let Some(start) = tail.bytes.len().checked_add(more) else {
        return Err(NoMemory);
    };
    let mut bytes = Vec::new(*tail.bytes.allocator());
    bytes.resize(start, 0)?;
    bytes.extend_from_slice(text_of(tail))?;
    *tail = Tail { bytes, start };
    Ok(())
}

/// Puts these bytes before the text.
pub(crate) fn put_bytes(tail: &mut Tail, bytes: &[u8]) -> Result<(), NoMemory>
    ensures { OnOk result (held tail.new ≡ bytes.now ++ held tail.old) }
{
    make_room(tail, bytes.len())?;
    let end = tail.start;
    let start = end - bytes.len();
    tail.bytes[start..end].copy_from_slice(bytes);
    tail.start = start;
    Ok(())
}

/// Puts a byte before the text.
pub(crate) fn put_byte(tail: &mut Tail, byte: u8) -> Result<(), NoMemory>
    ensures { OnOk result (held tail.new ≡ byte ∷ held tail.old) }
{
    make_room(tail, 1)?;
    let start = tail.start - 1;
    tail.bytes[start] = byte;
    tail.start = start;
    Ok(())
}

/// Puts a comma before the text, where there is more.
pub(crate) fn put_comma(tail: &mut Tail, more: bool) -> Result<(), NoMemory>
    ensures { OnOk result (held tail.new ≡ comma_where more ++ held tail.old) }
{
    if more {
        put_byte(tail, b',')?;
    }
    Ok(())
}

/// Puts a number before the text.
pub(crate) fn put_number(tail: &mut Tail, number: i32) -> Result<(), NoMemory>
    ensures { OnOk result (held tail.new ≡ signed_decimal number ++ held tail.old) }
{
    put_digits(tail, number.unsigned_abs())?;
    if number < 0 {
        put_byte(tail, b'-')?;
    }
    Ok(())
}

/// Puts the digits of a number before the text.
fn put_digits(tail: &mut Tail, number: u32) -> Result<(), NoMemory>
    ensures { OnOk result (held tail.new ≡ decimal number ++ held tail.old) }
{
    make_room(tail, DIGITS)?;
    let end = tail.start;
    let start = write_digits(number as u64, tail.bytes.as_mut_slice(), end);
    tail.start = start;
    Ok(())
}
