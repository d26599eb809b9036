ghost use Rattle.std.specs.Prelude.{◌≡◌, is_err, if◌then◌else◌};
ghost use Rattle.us_edge.specs.Scripts.{saturating_suc, is_to_fail};

use crate::Failed;

/// How many calls an object in memory has answered, and which of them are to fail, by their numbers from 1.
#[derive(Drop)]
pub struct Calls {
    pub fails: Vec<u64>,
    pub made: u64,
    pub faults: u64,
}

impl Calls {
    /// No calls yet.
    pub fn new(fails: Vec<u64>) -> Calls
        ensures fails { result.fails ≡ fails }
        ensures made { result.made ≡ 0 }
        ensures faults { result.faults ≡ 0 }
    {
        Calls {
            fails,
            made: 0,
            faults: 0,
        }
    }

    /// Whether the call is to fail, which is counted.
    pub fn begin(&mut self) -> bool
        ensures to_fail { result ≡ is_to_fail self.old.fails.items self.old.made }
        ensures fails { self.new.fails ≡ self.old.fails }
        ensures made { self.new.made ≡ saturating_suc self.old.made }
        ensures faults { self.new.faults ≡ self.old.faults }
    {
        self.made = self.made.saturating_add(1);
        self.fails.contains(&self.made)
    }

    /// Counts a call, and a fault where it is to fail.
    pub fn count(&mut self) -> Result<(), Failed>
        ensures fails { self.new.fails ≡ self.old.fails }
        ensures made { self.new.made ≡ saturating_suc self.old.made }
        ensures failed { is_err result ≡ is_to_fail self.old.fails.items self.old.made }
        ensures faults { self.new.faults ≡ (if is_err result then saturating_suc self.old.faults else self.old.faults) }
    {
        if self.begin() {
            self.count_fault();
            return Err(Failed);
        }
        Ok(())
    }

    /// Counts a fault.
    pub fn count_fault(&mut self)
        ensures fails { self.new.fails ≡ self.old.fails }
        ensures made { self.new.made ≡ self.old.made }
        ensures faults { self.new.faults ≡ saturating_suc self.old.faults }
    {
        self.faults = self.faults.saturating_add(1);
    }
}
