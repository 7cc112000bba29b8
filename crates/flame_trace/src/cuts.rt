//! Where bytes are cut.

ghost use Rattle.std.specs.Prelude.{◌≡◌, ◌==◌, ◌≤◌, [], ◌∷◌, drop, length, MatchOption};
ghost use Rattle.std.specs.List.{position_or_len, slice_split};
ghost use Rattle.flame_trace.specs.TraceCuts.{IsCut};

/// What stands before the first byte of this value, and what stands behind it; none where there is no such byte.
pub(crate) fn cut_at(bytes: &[u8], byte: u8) -> Option<(&[u8], &[u8])>
    ensures { MatchOption result
        (slice_split (λ other. other == byte) bytes.now ≡ bytes.now ∷ [])
        (λ cut. IsCut byte bytes.now cut.0.now cut.1.now) }
{
    let place = place_of(bytes, byte);
    if place < bytes.len() {
        Some((&bytes[..place], behind(bytes, place + 1)))
    } else {
        None
    }
}

/// How many bytes stand before the first of this value, or how many there are.
fn place_of(bytes: &[u8], byte: u8) -> usize
    ensures { result ≡ position_or_len (λ other. other == byte) bytes.now }
{
    bytes.iter().take_while(|other| **other != byte).count()
}

/// The bytes from a place on.
#[tactic(auto, using(std::proofs::lemmas::List::take_rest))]
fn behind(bytes: &[u8], place: usize) -> &[u8]
    requires { place ≤ length bytes.now }
    ensures { result.now ≡ drop place bytes.now }
{
    &bytes[place..]
}
