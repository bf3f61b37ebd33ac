ghost use Rattle.std.specs.Prelude.{◌≡◌, ◌-◌, ◌≤◌, true, false, cond, [], ◌∷◌, ◌++◌, take, drop, replicate, pos, is_ok};
ghost use Rattle.std.specs.List.{list_all};
ghost use Rattle.std.specs.Result.{result_err};
ghost use Rattle.score.specs.Ranges.{point_fits};
ghost use Rattle.score.specs.Windows.{point_refusal, closed};

use crate::ranges::is_within;
use crate::refusal::WindowRefusal;

// The points of a window, one each ten seconds.
pub const POINTS: usize = 30;

// A point is at most so many kW from 0.
const LARGEST_POINT: u32 = 1_000_000;

// A window that takes points: a resource's response in kW beyond its set point. The first `sent` places hold the
// points gathered, in the order in which they came; the others hold 0.
#[derive(Drop)]
pub struct GatheringWindow {
    points: [i32; POINTS],
    sent: usize,
    ghost room: { sent ≤ 30 },
    ghost unsent: { drop sent points ≡ replicate (30 - sent) (pos 0) },
    ghost fit: { list_all point_fits points ≡ true },
}

// A window that is only read.
#[derive(Drop)]
pub struct ClosedWindow {
    points: [i32; POINTS],
    ghost fit: { list_all point_fits points ≡ true },
}

impl GatheringWindow {
    // A window with no points.
    pub fn new() -> GatheringWindow
        ensures { take result.sent result.points ≡ [] }
    {
        GatheringWindow {
            points: [0; POINTS],
            sent: 0,
        }
    }

    // Gathers one point more.
    pub fn add(&mut self, point: i32) -> Result<(), WindowRefusal>
        ensures answer { result_err result ≡ point_refusal (take self.old.sent self.old.points) point }
        ensures gathered { take self.new.sent self.new.points ≡ cond (is_ok result)
            (take self.old.sent self.old.points ++ point ∷ [])
            (take self.old.sent self.old.points) }
        ensures kept { is_ok result ≡ false → self.new ≡ self.old }
    {
        if self.sent >= POINTS {
            return Err(WindowRefusal::Full);
        }
        if !is_within::<LARGEST_POINT>(point) {
            return Err(WindowRefusal::PointRange);
        }
        self.points[self.sent] = point;
        self.sent += 1;
        Ok(())
    }

    // Ends the gathering. Points that were not sent count as 0.
    pub fn close(self) -> ClosedWindow
        ensures { result.points ≡ closed (take self.sent self.points) }
    {
        let GatheringWindow { points, sent: _ } = self;
        ClosedWindow { points }
    }
}

impl ClosedWindow {
    // The thirty points.
    pub fn points(&self) -> &[i32; POINTS]
        ensures { result.now ≡ self.now.points }
    {
        &self.points
    }
}
