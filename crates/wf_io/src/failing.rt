ghost use Rattle.std.specs.Prelude.{◌≡◌, ◌↔◌, IsTrue};
ghost use Rattle.wf_io.specs.InMemory.{numbers_from, after_one, FailsNext};

use wf_base::Items;

/// Which calls fail, by their numbers from 0, and how many were made.
#[derive(Debug, Drop)]
pub struct Failing {
    numbers: Items<u64>,
    made: u64,
}

impl Failing {
    pub fn new(numbers: Items<u64>) -> Failing
        ensures { result ≡ numbers_from numbers 0 }
    {
        Failing { numbers, made: 0 }
    }

    /// Numbers a call, and answers whether it is one that fails.
    pub fn fails_next(&mut self) -> bool
        ensures fails { IsTrue result ↔ FailsNext self.old }
        ensures counted { self.new ≡ after_one self.old }
    {
        let number = self.made;
        self.made = number.saturating_add(1);
        self.numbers.as_slice().contains(&number)
    }
}
