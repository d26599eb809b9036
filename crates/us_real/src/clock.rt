ghost use Rattle.std.specs.Prelude.{None};

use std::rt::Clock as _;
use us_edge::Clock;

/// The system's clock, in milliseconds since 1970. Where it fails it gives its last number again, 0 before its first.
#[derive(Drop)]
pub struct SystemClock {
    rt: HostRuntime,
    last: u64,
}

impl SystemClock {
    pub fn new(rt: HostRuntime) -> SystemClock {
        SystemClock { rt, last: 0 }
    }
}

impl Clock for SystemClock {
    ghost numbers = { λ _. None };

    fn now(&mut self) -> u64 {
        if let Ok(since) = self.rt.since_1970() {
            self.last = u64::try_from(since.as_millis()).unwrap_or(self.last);
        }
        self.last
    }
}
