// Which calls of a stream in memory fail.
ghost use Rattle.std.specs.Prelude.{◌≡◌, ◌+◌, ◌↔◌, IsTrue, if◌then◌else◌};
ghost use Rattle.tm_io.specs.Calls.{FailsNext, one_more, faults_among};

/// The calls that fail, by their numbers from 1, and how many calls there were: the count stays at 2^64-1.
#[derive(Drop)]
pub struct Calls {
    pub failing: Vec<u64>,
    pub made: u64,
}

impl Calls {
    /// Counts one more call, and says whether it fails. Once the count stays, none does.
    pub fn next_fails(&mut self) -> bool
        ensures fails { IsTrue result ↔ FailsNext self.old.failing.items self.old.made }
        ensures counted { self.new.made ≡ one_more self.old.made }
        ensures same { self.new.failing.items ≡ self.old.failing.items }
        ensures faults { faults_among self.new.failing.items self.new.made
            ≡ faults_among self.old.failing.items self.old.made + (if result then 1 else 0) }
    {
        if self.made == u64::MAX {
            return false;
        }
        self.made += 1;
        self.failing.contains(&self.made)
    }
}
