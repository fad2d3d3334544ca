// Calls of which some fail by their number.
ghost use Rattle.std.specs.Prelude.{◌≡◌, ◌^◌, ◌<◌, ◌≤◌};
ghost use Rattle.st_io.specs.Calls.{no_calls, next_fails, after_next};

use std::marker::Model;

#[derive(Drop)]
pub struct ListedCalls {
    fails: Vec<u64>,
    made: u64,
    faults: u64,
}

impl Model for ListedCalls {
    ghost use Rattle.st_io.specs.Calls.{Calls};

    ghost Value = { Calls };

    ghost view = { λ c. record { fails = c.fails.items; made = c.made; faults = c.faults } };

    ghost use Rattle.std.specs.Prelude.{ℕ, ◌^◌, ◌<◌};

    ghost invariant = { λ c. c.faults < 2 ^ 64 };
}

impl ListedCalls {
    pub fn new(fails: Vec<u64>) -> Self
        ensures { result ≡ no_calls fails.items }
    {
        ListedCalls {
            fails,
            made: 0,
            faults: 0,
        }
    }

    // Counts the next call, and answers whether it fails.
    pub fn next_fails(&mut self) -> bool
        ensures answer { result ≡ next_fails self.old }
        ensures counted { self.new ≡ after_next self.old }
        ensures never_falls { self.old.faults ≤ self.new.faults }
        ensures fits { self.new.faults < 2 ^ 64 }
    {
        self.made = self.made.saturating_add(1);
        let fails = self.fails.contains(&self.made);
        if fails {
            self.faults = self.faults.saturating_add(1);
        }
        fails
    }

    pub fn faults(&self) -> u64
        ensures { result ≡ self.now.faults }
    {
        self.faults
    }
}
