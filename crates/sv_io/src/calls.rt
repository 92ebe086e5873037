// Calls numbered from 1, of which some fail.
ghost use Rattle.std.specs.Prelude.{◌≡◌, ℕ, []};
ghost use Rattle.sv_io.specs.Count.{one_more, is_failing};

/// Numbers calls from 1, and knows the numbers of those that fail.
#[derive(Drop)]
pub struct Calls {
    pub failing: Vec<u32>,
    pub made: u64,
}

impl Calls {
    /// No call was made yet.
    pub fn new(failing: Vec<u32>) -> Calls
        ensures { result ≡ record { failing = failing; made = 0 } }
    {
        Calls { failing, made: 0 }
    }

    /// Numbers one more call, and says whether it is one that fails. Past the greatest u64 the
    /// calls keep that number, which is none that fails.
    pub fn next_fails(&mut self) -> bool
        ensures made { self.new.made ≡ one_more self.old.made }
        ensures failing { self.new.failing ≡ self.old.failing }
        ensures fails { result ≡ is_failing self.new.failing.items self.new.made }
    {
        self.made = self.made.saturating_add(1);
        let made = self.made;
        self.failing.iter().any(|number| u64::from(*number) == made)
    }
}
