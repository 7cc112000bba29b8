//! Line 1 of a trace.

ghost use Rattle.std.specs.Prelude.{◌≡◌, ◌&&◌, [], ◌∷◌, None, MatchOption, codes};
ghost use Rattle.std.specs.Str.{bytes_eq};
ghost use Rattle.flame_trace.specs.TraceLines.{head_in, head_of, words};

use crate::numbers::number_within;
use crate::words::{is_word, next_word};

/// Which iteration a trace says that it tells.
#[derive(Clone, Copy, Debug)]
pub(crate) struct Head {
    /// The number of the iteration, from 1.
    pub(crate) iteration: u32,
    /// In how many pieces the agents of a function are cut at most.
    pub(crate) pieces: u32,
    /// The fuel of each call of a function.
    pub(crate) fuel: u32,
}

/// The words of line 1.
#[derive(Clone, Copy)]
struct HeadWords<'a> {
    trace: &'a [u8],
    iteration: &'a [u8],
    i: &'a [u8],
    pieces: &'a [u8],
    p: &'a [u8],
    fuel: &'a [u8],
    f: &'a [u8],
}

/// The seven words of a line; none where it has more or less.
fn head_words(line: &[u8]) -> Option<HeadWords<'_>>
    ensures { MatchOption result (head_of line.now ≡ None) (λ head. words line.now
        ≡ head.trace.now ∷ head.iteration.now ∷ head.i.now ∷ head.pieces.now ∷ head.p.now ∷ head.fuel.now ∷ head.f.now ∷ []) }
{
    let (trace, left) = next_word(Some(line))?;
    let (iteration, left) = next_word(left)?;
    let (i, left) = next_word(left)?;
    let (pieces, left) = next_word(left)?;
    let (p, left) = next_word(left)?;
    let (fuel, left) = next_word(left)?;
    let (f, left) = next_word(left)?;
    match next_word(left) {
        Some(_) => None,
        None => Some(HeadWords {
            trace,
            iteration,
            i,
            pieces,
            p,
            fuel,
            f,
        }),
    }
}

/// Whether the names in line 1 are as they are to be.
fn are_named(head: &HeadWords<'_>) -> bool
    ensures { result ≡ (bytes_eq head.now.trace.now (codes "trace")
        && bytes_eq head.now.iteration.now (codes "iteration")
        && bytes_eq head.now.pieces.now (codes "pieces")
        && bytes_eq head.now.fuel.now (codes "fuel")) }
{
    is_word(head.trace, "trace")
        && is_word(head.iteration, "iteration")
        && is_word(head.pieces, "pieces")
        && is_word(head.fuel, "fuel")
}

/// Which iteration the line says that the trace tells: `trace iteration I pieces P fuel F`. None where it is not of that
/// form, or I is not from 1 to 2147483647, P not from 1 to 64 or F above 1000000000.
pub(crate) fn head_of(line: &[u8]) -> Option<Head>
    ensures { result ≡ head_of line.now }
{
    let head = head_words(line)?;
    if !are_named(&head) {
        return None;
    }
    let iteration = number_within(head.i, 1, 2147483647)?;
    let pieces = number_within(head.p, 1, 64)?;
    let fuel = number_within(head.f, 0, 1000000000)?;
    Some(Head {
        iteration,
        pieces,
        fuel,
    })
}
