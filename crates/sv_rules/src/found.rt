// The first of the places at which a rule is broken.
ghost use Rattle.std.specs.Prelude.{◌≡◌, ℕ, [], ◌∷◌, if◌then◌else◌};
ghost use Rattle.sv_flat.specs.Breaches.{breach};
ghost use Rattle.sv_rules.specs.First.{FindsFirst, found_before, first_found};

use sv_flat::SigId;
use sv_num::Place;

/// Where a rule is broken, and for which signal.
#[derive(Clone, Copy)]
pub struct Found {
    pub place: Place,
    pub signal: SigId,
}

/// Whether the first comes before the second: by line, then column, then signal.
pub fn is_before(first: Found, second: Found) -> bool
    ensures { result ≡ found_before first second }
{
    if first.place.line != second.place.line {
        first.place.line < second.place.line
    } else if first.place.column != second.place.column {
        first.place.column < second.place.column
    } else {
        first.signal.0 < second.signal.0
    }
}

/// The first of what was found and what else was found.
pub fn first_of(found: Option<Found>, other: Option<Found>) -> Option<Found>
    ensures { result ≡ first_found found other }
{
    match (found, other) {
        (Some(found), Some(other)) => Some(if is_before(other, found) {
            other
        } else {
            found
        }),
        (Some(found), None) => Some(found),
        (None, other) => other,
    }
}

/// A place and signal, where something is wrong there.
pub fn found_if(wrong: bool, place: Place, signal: SigId) -> Option<Found>
    ensures { (number : ℕ) →
        FindsFirst number (if wrong then breach number place signal.0 ∷ [] else []) result }
{
    if wrong {
        Some(Found { place, signal })
    } else {
        None
    }
}
