ghost use Rattle.std.specs.Prelude.{◌≡◌, ◌≤◌, ◌↔◌, IsTrue, Contains, if◌then◌else◌};
ghost use Rattle.zr_io.specs.Faults.{next_count};

// Numbers calls from 0, and says which of them are to fail. It counts faults too.
#[derive(Drop)]
pub struct Calls {
    fails: Vec<u64>,
    made: u64,
    faults: u64,
}

impl Calls {
    pub fn new(fails: Vec<u64>) -> Calls
        ensures { result ≡ record { fails = fails; made = 0; faults = 0 } }
    {
        Calls {
            fails,
            made: 0,
            faults: 0,
        }
    }

    // Counts a call and says whether it is to fail, which is a fault.
    pub fn begin(&mut self) -> bool
        ensures listed { IsTrue result ↔ Contains self.old.fails.items self.old.made }
        ensures fails { self.new.fails ≡ self.old.fails }
        ensures made { self.new.made ≡ next_count self.old.made }
        ensures faults { self.new.faults ≡ (if result then next_count self.old.faults else self.old.faults) }
        ensures grows { self.old.faults ≤ self.new.faults }
    {
        let is_listed = self.fails.contains(&self.made);
        self.made = self.made.saturating_add(1);
        if is_listed {
            self.fault();
        }
        is_listed
    }

    // Counts a fault.
    pub fn fault(&mut self)
        ensures counts { self.new ≡ record self.old { faults = next_count self.old.faults } }
        ensures grows { self.old.faults ≤ self.new.faults }
    {
        self.faults = self.faults.saturating_add(1);
    }

    pub fn faults(&self) -> u64
        ensures { result ≡ self.now.faults }
    {
        self.faults
    }
}
