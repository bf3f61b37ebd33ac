ghost use Rattle.std.specs.Prelude.{◌≡◌, ◌<◌, true};
ghost use Rattle.std.specs.List.{list_all};
ghost use Rattle.score.specs.Ranges.{assigned_fits, reading_fits, error_fits};
ghost use Rattle.score.specs.Errors.{error_of, error_at, errors};

use crate::signal::Signal;
use crate::window::{ClosedWindow, POINTS};
use std::array;

// Readings between two points.
const READINGS_A_POINT: usize = 5;

// How far a point is from what was asked for, in ten-thousandths of a kW.
fn error_of(assigned: u32, point: i32, reading: i32) -> u64
    ensures { result ≡ error_of assigned point reading }
{
    let given = 10_000 * i64::from(point);
    let asked = i64::from(assigned) * i64::from(reading);
    given.abs_diff(asked)
}

// The error of the point at a place, against the reading ten seconds before it.
fn error_at(window: &ClosedWindow, assigned: u32, signal: &Signal, place: usize) -> u64
    requires { place < 30 }
    ensures { result ≡ error_at assigned window.now.points signal.now.previous signal.now.readings.now place }
{
    let reading = signal.reading(READINGS_A_POINT * place);
    error_of(assigned, window.points()[place], reading)
}

// The errors of the window's points against the readings ten seconds before each. Where assignment and readings are
// in their ranges, so is every error.
pub fn tracking_errors(window: &ClosedWindow, assigned: u32, signal: &Signal) -> [u64; POINTS]
    ensures value { result ≡ errors assigned window.now.points signal.now.previous signal.now.readings.now }
    ensures fit { assigned_fits assigned ≡ true → reading_fits signal.now.previous ≡ true → list_all reading_fits signal.now.readings.now ≡ true → list_all error_fits result ≡ true }
{
    array::from_fn(|place| error_at(window, assigned, signal, place))
}
