// How far a simulation is, for a person who waits at a terminal.
use std::io::Stderr;
use std::time::{Clock, Duration, Instant};

// Milliseconds of work of which nothing is shown.
const SHORT: u64 = 2_000;

// Milliseconds at least from one line to the next.
const PAUSE: u64 = 200;

// Blanks over the longest line that is shown.
const BLANKS: &str = "\r                                \r";

/// Shows on standard error, in one line that is written over, which cycle was simulated last.
#[derive(Drop)]
pub struct ProgressLine<C: Clock> {
    clock: C,
    stderr: Stderr,
    // When the next line may be shown; None where none is to be.
    due: Option<Instant>,
    is_shown: bool,
}

impl<C: Clock> ProgressLine<C> {
    /// Of work that begins now. Nothing is ever shown where nobody watches, or where the clock
    /// cannot be read.
    pub fn new(clock: C, stderr: Stderr, is_watched: bool) -> ProgressLine<C> {
        let due = if is_watched {
            later(&clock, SHORT)
        } else {
            None
        };
        ProgressLine {
            clock,
            stderr,
            due,
            is_shown: false,
        }
    }

    /// Shows that this cycle was simulated last, if that is due.
    pub fn show(&mut self, cycle: u64) {
        if self.is_due() {
            self.due = later(&self.clock, PAUSE);
            self.is_shown = true;
            // not used: where this cannot be written, nothing is shown
            let _ = eprint!(self.stderr; "\rsecv: cycle {cycle}");
        }
    }

    fn is_due(&self) -> bool {
        match self.due {
            Some(due) => Instant::now(&self.clock).is_ok_and(|now| now >= due),
            None => false,
        }
    }

    /// Wipes what was shown.
    pub fn wipe(&self) {
        if self.is_shown {
            // not used: where this cannot be written, nothing was shown
            let _ = self.stderr.eprint(BLANKS);
        }
    }
}

// So many milliseconds from now; None where the clock does not tell it.
fn later<C: Clock>(clock: &C, millis: u64) -> Option<Instant> {
    Instant::now(clock)
        .ok()?
        .checked_add(Duration::from_millis(millis))
}
