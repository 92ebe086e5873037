// Phases of variables.
use crate::literal::Literal;
use std::alloc::{AllocError, Global};

/// Phase of each variable: the value that it had last.
#[derive(Drop)]
pub struct Phases {
    were_true: Vec<bool>,
}

impl Phases {
    /// The phase of each variable is false at first.
    pub fn new(alloc: Global, variables: u32) -> Result<Phases, AllocError> {
        let were_true = vec![in alloc; false; variables as usize + 1]?;
        Ok(Phases { were_true })
    }

    /// Saves the phase of a true literal's variable.
    pub fn save(&mut self, literal: &Literal) {
        let index = literal.variable() as usize;
        if index < self.were_true.len() {
            self.were_true[index] = literal.signed() > 0;
        }
    }

    /// Whether a variable was true last.
    pub fn was_true(&self, variable: u32) -> bool {
        let index = variable as usize;
        index < self.were_true.len() && self.were_true[index]
    }
}
