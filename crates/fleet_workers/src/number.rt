// The number of workers.
ghost use Rattle.std.specs.Prelude.{◌≡◌, ◌<◌, ◌≤◌};
ghost use Rattle.std.specs.Option.{SomeIff};
ghost use Rattle.fleet_workers.specs.Limits.{max_workers};

use std::marker::Model;

// The most workers.
const MAX_WORKERS: u16 = 256;

/// How many workers run a script: 1 to 256.
#[derive(Clone, Copy, Debug, PartialEq, Eq)]
pub struct Workers {
    count: u16,
}

impl Model for Workers {
    ghost use Rattle.std.specs.Prelude.{ℕ, ◌<◌, ◌≤◌};
    ghost use Rattle.fleet_workers.specs.Limits.{max_workers};

    ghost Value = { ℕ };

    ghost view = { λ w. w.count };

    ghost invariant = { λ w. (0 < w.count) × (w.count ≤ max_workers) };

    ghost inverse = { λ n. record { count = n } };
}

impl Workers {
    /// That many workers, or `None` where the number isn't from 1 to 256.
    pub fn new(count: u16) -> Option<Workers>
        ensures { SomeIff result ((0 < count) × (count ≤ max_workers)) count }
    {
        if count == 0 || count > MAX_WORKERS {
            return None;
        }
        Some(Workers { count })
    }

    // The number of workers.
    pub(crate) fn count(self) -> usize
        ensures value { result ≡ self }
        ensures range { (0 < result) × (result ≤ max_workers) }
    {
        usize::from(self.count)
    }
}
