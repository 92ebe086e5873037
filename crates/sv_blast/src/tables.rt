// The words of signals while an encoding is made.
ghost use Rattle.std.specs.Prelude.{◌≡◌, OnOk};
ghost use Rattle.sv_encoding.specs.Encoding.{no_words};
ghost use Rattle.sv_encoding.specs.Bodies.{with_word};
ghost use Rattle.sv_blast.specs.WordTables.{words_of};

use std::alloc::{AllocError, Global};
use sv_flat::SigId;
use sv_gates::Literal;

/// The word of each signal, by its number: the literals of its value's bits from bit 0, and none
/// where no word was made.
#[derive(Drop)]
pub struct WordTable {
    pub rows: Vec<Vec<Literal>>,
}

impl WordTable {
    /// A table without a word.
    pub fn new(alloc: Global) -> WordTable
        ensures { words_of result ≡ no_words }
    {
        WordTable {
            rows: Vec::new(alloc),
        }
    }

    /// The word of a signal.
    pub fn word(&self, signal: SigId) -> &[Literal]
        ensures { result.now ≡ words_of self.now signal.0 }
    {
        match self.rows.get(signal.0 as usize) {
            Some(row) => row.as_slice(),
            None => &[],
        }
    }

    /// Gives a signal its word. An error says that memory ran out.
    pub fn put(
        &mut self,
        alloc: Global,
        signal: SigId,
        word: Vec<Literal>,
    ) -> Result<(), AllocError>
        ensures { OnOk result
            (words_of self.new ≡ with_word signal.0 word.items (words_of self.old)) }
    {
        let number = signal.0 as usize;
        'rows: while self.rows.len() <= number {
            self.rows.push(Vec::new(alloc))?;
        }
        self.rows[number] = word;
        Ok(())
    }
}
