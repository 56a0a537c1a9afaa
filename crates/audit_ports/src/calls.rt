//! The calls of what is told to fail some of them, by their numbers.
ghost use Rattle.std.specs.Prelude.{◌≡◌, ◌↔◌, IsTrue};
ghost use Rattle.audit_ports.specs.Calls.{CountsCall, IsFailingCall, no_calls};

use stale_model::List;

/// How many calls were counted, and the numbers of those that fail.
#[derive(Drop, Debug)]
pub(crate) struct Calls {
    counted: u64,
    fail: List<u32>,
}

impl Calls {
    /// No call yet; those of these numbers will fail.
    pub(crate) fn none(fail: List<u32>) -> Calls
        ensures { result ≡ no_calls fail }
    {
        Calls { counted: 0, fail }
    }

    /// Counts a call, and says whether it is one that fails.
    pub(crate) fn count(&mut self) -> bool
        ensures counts { CountsCall self.old self.new }
        ensures failing { IsTrue result ↔ IsFailingCall self.new }
    {
        self.counted = self.counted.saturating_add(1);
        let number = self.counted;
        self.fail.as_slice().iter().any(|&n| u64::from(n) == number)
    }
}
