// Numbers and places.
ghost use Rattle.std.specs.Prelude.{◌≡◌, ◌++◌, decimal, OnOk, OnErr};
ghost use Rattle.sv_texts.specs.Texts.{place_text, GrowsByFront};

use itoa::Buffer;
use std::alloc::AllocError;
use sv_num::Place;

/// Adds a number in decimal digits. Refused, it adds nothing.
pub fn push_number(text: &mut Vec<u8>, number: u64) -> Result<(), AllocError>
    ensures pushed { OnOk result (text.new.items ≡ text.old.items ++ decimal number) }
    ensures refused { OnErr result (text.new.items ≡ text.old.items) }
{
    let mut buffer = Buffer::new();
    text.extend_from_slice(buffer.format(number).as_bytes())?;
    Ok(())
}

/// Adds a place: its line and its column, with a colon between them. Refused, it adds a front of
/// them.
pub fn push_place(text: &mut Vec<u8>, place: Place) -> Result<(), AllocError>
    ensures pushed { OnOk result (text.new.items ≡ text.old.items ++ place_text place) }
    ensures refused { OnErr result
        (GrowsByFront text.old.items (place_text place) text.new.items) }
{
    push_number(text, u64::from(place.line))?;
    text.push(b':')?;
    push_number(text, u64::from(place.column))?;
    Ok(())
}
