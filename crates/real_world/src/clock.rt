// The machine's clock.
ghost use Rattle.std.specs.Prelude.{◌≡◌, min, IfOk, IfErr};
ghost use Rattle.std.specs.Time.{system_time_nanos};

use outside::Clock;
use std::io;
use std::time::{SystemTime, UNIX_EPOCH};

/// The machine's clock.
#[derive(Drop)]
pub struct RealClock<'a> {
    rt: &'a HostRuntime,
}

impl<'a> RealClock<'a> {
    pub fn new(rt: &'a HostRuntime) -> Self {
        RealClock { rt }
    }
}

impl Clock for RealClock<'_> {
    ghost use Rattle.std.specs.Prelude.{None};

    ghost meaning = { record { readings = λ _. None } };

    /// 0 before 1970 and where the machine gives no time, and 2^64 - 1 where it gives a later one.
    fn now(&mut self) -> u64 {
        nanoseconds(SystemTime::now(self.rt))
    }
}

// The nanoseconds since 1970 of the time that was given, at most 2^64 - 1, and 0 where none was.
fn nanoseconds(given: io::Result<SystemTime>) -> u64
    ensures given { IfOk given (λ time. result ≡ min (system_time_nanos time) 18446744073709551615) }
    ensures none { IfErr given (λ _. result ≡ 0) }
{
    let Ok(time) = given else {
        return 0;
    };
    match time.duration_since(UNIX_EPOCH) {
        Ok(since) => u64::try_from(since.as_nanos()).unwrap_or(u64::MAX),
        Err(_) => 0,
    }
}
