// The places of the bits of inputs and registers.
ghost use Rattle.std.specs.Prelude.{◌≡◌, ◌++◌, ◌≤◌, ◌<◌, ◌+◌, OnOk, map, length, All};
ghost use Rattle.std.specs.List.{enumerate_from};
ghost use Rattle.sv_design.specs.Numbers.{numbers};
ghost use Rattle.sv_encoding.specs.Encoding.{bit_places, word_places};
ghost use Rattle.sv_blast.specs.Coded.{place_form};
ghost use Rattle.sv_blast.specs.WordTables.{words_of};

use crate::coded::BitPlace;
use crate::tables::WordTable;
use std::alloc::AllocError;
use sv_flat::SigId;
use sv_gates::Literal;

// Adds the places of a word's bits, each of which is a variable.
fn add_word(
    places: &mut Vec<BitPlace>,
    next: bool,
    signal: SigId,
    word: &[Literal],
) -> Result<(), AllocError>
    requires { length word.now ≤ 64 }
    ensures { OnOk result (map place_form places.new.items
        ≡ map place_form places.old.items ++ word_places next signal.0 word.now) }
{
    let mut bit: u8 = 0;
    for literal in word {
        places.push(BitPlace {
            signal,
            next,
            bit,
            variable: literal.variable(),
        })?;
        bit += 1;
    }
    Ok(())
}

/// Adds the places of the bits of these signals' words, of this cycle or of the next one.
/// An error says that memory ran out.
pub fn add_places(
    places: &mut Vec<BitPlace>,
    next: bool,
    words: &WordTable,
    signals: &[SigId],
) -> Result<(), AllocError>
    requires { All (λ s. length (words_of words.now s) ≤ 64) (numbers signals.now) }
    ensures { OnOk result (map place_form places.new.items
        ≡ map place_form places.old.items
        ++ bit_places next (words_of words.now) (numbers signals.now)) }
{
    for signal in signals {
        add_word(places, next, *signal, words.word(*signal))?;
    }
    Ok(())
}
