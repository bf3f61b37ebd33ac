ghost use Rattle.std.specs.Prelude.{◌≡◌, [], IfOk};
ghost use Rattle.std.specs.Result.{result_err};
ghost use Rattle.score.specs.Windows.{first_refusal, closed};

use crate::refusal::WindowRefusal;
use crate::window::{ClosedWindow, GatheringWindow};

// The closed window of these points, sent one after another, or the refusal of the first that is refused.
pub fn gather(points: &[i32]) -> Result<ClosedWindow, WindowRefusal>
    ensures answer { result_err result ≡ first_refusal [] points.now }
    ensures window { IfOk result (λ w. w.points ≡ closed points.now) }
{
    let mut window = GatheringWindow::new();
    for point in points {
        window.add(*point)?;
    }
    Ok(window.close())
}
