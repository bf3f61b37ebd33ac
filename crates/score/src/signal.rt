ghost use Rattle.std.specs.Prelude.{◌≡◌, ◌≤◌, ◌&&◌, true, length, IfOk};
ghost use Rattle.std.specs.List.{list_all};
ghost use Rattle.std.specs.Result.{result_err};
ghost use Rattle.score.specs.Errors.{reading};
ghost use Rattle.score.specs.Ranges.{reading_fits};
ghost use Rattle.score.specs.Signals.{signal_refusal, mileage_of, last_of};

use crate::ranges::is_within;
use crate::refusal::SignalRefusal;

// The readings of an interval, one each two seconds.
pub const READINGS: usize = 150;

// A reading is at most so far from 0.
const LARGEST_READING: u32 = 10_000;

// The control signal of an interval: its readings, and the reading before them.
#[derive(Clone, Copy)]
pub struct Signal<'a> {
    pub previous: i32,
    pub readings: &'a [i32],
}

fn all_fit(readings: &[i32]) -> bool
    ensures { result ≡ list_all reading_fits readings.now }
{
    readings
        .iter()
        .all(|reading| is_within::<LARGEST_READING>(*reading))
}

impl Signal<'_> {
    // The sum of the distances of each reading from the one before, and the last reading.
    fn walk(&self) -> (u32, i32)
        requires few { length self.now.readings.now ≤ 150 }
        requires start { reading_fits self.now.previous ≡ true }
        requires all { list_all reading_fits self.now.readings.now ≡ true }
        ensures mileage { result.0 ≡ mileage_of self.now.previous self.now.readings.now }
        ensures last { result.1 ≡ last_of self.now.previous self.now.readings.now }
    {
        let mut mileage = 0;
        let mut before = self.previous;
        for reading in self.readings {
            mileage += reading.abs_diff(before);
            before = *reading;
        }
        (mileage, before)
    }

    // The mileage of the readings and the last of them.
    pub fn mileage(&self) -> Result<(u32, i32), SignalRefusal>
        ensures answer { result_err result ≡ signal_refusal self.now.previous self.now.readings.now }
        ensures walked { IfOk result
            (λ w. (w.0 ≡ mileage_of self.now.previous self.now.readings.now) × (w.1 ≡ last_of self.now.previous self.now.readings.now)) }
    {
        if self.readings.len() != READINGS {
            return Err(SignalRefusal::ReadingCount);
        }
        if !is_within::<LARGEST_READING>(self.previous) || !all_fit(self.readings) {
            return Err(SignalRefusal::ReadingRange);
        }
        Ok(self.walk())
    }

    // Reading `k`, where reading 0 is the one before the interval's; 0 past the last.
    pub fn reading(&self, k: usize) -> i32
        ensures { result ≡ reading self.now.previous self.now.readings.now k }
    {
        match k.checked_sub(1) {
            None => self.previous,
            Some(place) => self.readings.get(place).copied().unwrap_or(0),
        }
    }
}
