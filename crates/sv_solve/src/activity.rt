// Activities of variables.
use std::alloc::{AllocError, Global};

/// Activity: a score for each variable, raised by each conflict that saw the variable.
#[derive(Drop)]
pub struct Activity {
    scores: Vec<f64>,
    rise: f64,
}

// A score counts this much less with each later conflict: instead of lowering all scores, each
// conflict raises by more.
const DECAY: f64 = 0.95;

// Past this all scores are lowered, long before they leave the range of a float.
const HIGH: f64 = 1e100;

const LOWERED: f64 = 1e-100;

impl Activity {
    /// No variable is active yet.
    pub fn new(alloc: Global, variables: u32) -> Result<Activity, AllocError> {
        let scores = vec![in alloc; 0.0; variables as usize + 1]?;
        Ok(Activity { scores, rise: 1.0 })
    }

    /// The score of a variable.
    pub fn of(&self, variable: u32) -> f64 {
        let index = variable as usize;
        if index < self.scores.len() {
            return self.scores[index];
        }
        0.0
    }

    /// Bumps a variable: raises its score by as much as a conflict counts now.
    pub fn bump(&mut self, variable: u32) {
        let index = variable as usize;
        if index < self.scores.len() {
            self.scores[index] = self.scores[index] + self.rise;
        }
    }

    /// Decays all scores, since the next conflict counts for more.
    pub fn decay(&mut self) {
        self.rise = self.rise / DECAY;
        if self.rise > HIGH {
            self.lower();
        }
    }

    // Lowers all scores alike, and what a conflict counts.
    fn lower(&mut self) {
        self.rise = self.rise * LOWERED;
        'scores: for index in 0..self.scores.len() {
            self.scores[index] = self.scores[index] * LOWERED;
        }
    }
}
