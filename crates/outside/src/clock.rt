// Where the time comes from.
ghost use Rattle.std.specs.Prelude.{◌≡◌, ◌≤◌, vec_len, Some};
ghost use Rattle.outside.specs.World.{Told};

/// A clock, which may go back.
pub trait Clock {
    ghost use Rattle.outside.specs.ClockMeaning.{ClockMeaning};

    ghost meaning: { ClockMeaning Self };

    ghost use Rattle.outside.specs.ClockMeaning.{Reads};

    /// The time in nanoseconds since 1970.
    fn now(&mut self) -> u64
        ensures { Told (Reads result) ((meaning).readings self.old) ((meaning).readings self.new) };
}

/// A clock in memory: it gives its readings in turn, then the last one again, and 0 where there is none.
#[derive(Drop)]
pub struct MemClock {
    readings: Vec<u64>,
    place: usize,
    ghost in_range: { place ≤ vec_len readings },
}

impl MemClock {
    ghost use Rattle.outside.specs.MemClock.{readings_of};

    /// A clock with these readings.
    pub fn new(readings: Vec<u64>) -> MemClock
        ensures { readings_of result ≡ readings.items }
    {
        MemClock { readings, place: 0 }
    }
}

impl Clock for MemClock {
    ghost use Rattle.outside.specs.ClockMeaning.{Reads};
    ghost use Rattle.outside.specs.MemClock.{clock_meaning, readings_of};

    ghost meaning = { clock_meaning };

    fn now(&mut self) -> u64
        ensures { Told (Reads result) (Some (readings_of self.old)) (Some (readings_of self.new)) }
    {
        let Some(reading) = self.readings.get(self.place).copied() else {
            return 0;
        };
        if self.place + 1 < self.readings.len() {
            self.place += 1;
        }
        reading
    }
}
