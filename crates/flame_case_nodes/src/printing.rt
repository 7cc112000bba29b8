//! Shares, as texts: `0 1 [5] [6]: arrived 2` names the piece, and says that the share is that which arrived as the third one, or
//! `0 1 [5] [6]: run`, that it is none that arrived. What its agents leave follows, a line each.

use flame_rows::{Bag, Row};
use flame_spec::Born;
use flame_world::{Part, Rest, Share, SimFault};
use std::alloc::AllocError;

/// Adds the rows, as ` [1] [3]`.
pub(crate) fn print_bag(out: &mut String, bag: &Bag) -> Result<(), AllocError> {
    for row in bag.rows() {
        write!(out, " {:?}", row.values())?;
    }
    Ok(())
}

/// The mark on the first board of the share, below so many.
fn mark_of(share: &Share<'_>, marks: u32) -> Option<u32> {
    let board = share.setting().boards.items().first()?;
    for mark in 0..marks {
        if board.indexed(mark).is_some() {
            return Some(mark);
        }
    }
    None
}

/// Adds the piece, and where the share is from, of which so many arrived.
fn print_head(out: &mut String, share: &Share<'_>, arrived: u32) -> Result<(), AllocError> {
    let piece = share.piece();
    write!(out, "{} {}", piece.function, piece.number)?;
    print_bag(out, &piece.agents)?;
    match mark_of(share, arrived) {
        Some(mark) => writeln!(out, ": arrived {mark}"),
        None => writeln!(out, ": run"),
    }
}

fn print_survivors(out: &mut String, rows: &[Row]) -> Result<(), AllocError> {
    for row in rows {
        writeln!(out, "  survivor {:?}", row.values())?;
    }
    Ok(())
}

/// Adds a line for a row of the type of this number.
fn print_typed(out: &mut String, word: &str, number: u32, row: &Row) -> Result<(), AllocError> {
    writeln!(out, "  {word} {number} {:?}", row.values())
}

fn print_births(out: &mut String, born: &[Born]) -> Result<(), AllocError> {
    for one in born {
        print_typed(out, "birth", one.agent, &one.row)?;
    }
    Ok(())
}

fn print_parts(out: &mut String, parts: &[Part]) -> Result<(), AllocError> {
    for part in parts {
        for row in part.rows.rows() {
            print_typed(out, "message", part.message, row)?;
        }
    }
    Ok(())
}

fn print_fault(out: &mut String, fault: &SimFault) -> Result<(), AllocError> {
    let cause = fault.cause;
    writeln!(
        out,
        "  {cause:?} at line {}: {:?}",
        fault.line,
        fault.memory.values()
    )
}

/// Adds what agents leave.
fn print_left(out: &mut String, rest: &Rest, parts: &[Part]) -> Result<(), AllocError> {
    print_survivors(out, rest.survivors.rows())?;
    print_births(out, rest.born.items())?;
    if let Some(fault) = &rest.fault {
        print_fault(out, fault)?;
    }
    print_parts(out, parts)
}

/// Adds a share, where so many arrived.
fn print_share(out: &mut String, share: Share<'_>, arrived: u32) -> Result<(), AllocError> {
    print_head(out, &share, arrived)?;
    let (rest, parts) = share.split();
    print_left(out, &rest, parts.items())
}

/// Adds these shares, where so many arrived.
pub(crate) fn print_shares(
    out: &mut String,
    shares: Vec<Share<'_>>,
    arrived: u32,
) -> Result<(), AllocError> {
    for share in shares {
        print_share(out, share, arrived)?;
    }
    Ok(())
}
