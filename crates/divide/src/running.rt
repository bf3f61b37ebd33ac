ghost use Rattle.std.specs.Prelude.{◌≡◌, length};
ghost use Rattle.divide.specs.Running.{running};
ghost use Rattle.divide.specs.Runs.{running_exact};

use crate::divider::Divider;
use crate::refusal::DivideRefusal;
use crate::sharing::Sharing;

// Each share is what the weights up to and with its place come to, rounded down, less the same for the place
// before.
#[derive(Clone, Copy)]
pub struct Running;

// Writes the running shares.
fn fill_running(sharing: &Sharing, out: &mut [u64])
    requires { length out.old ≡ length sharing.now.weights.now }
    ensures { out.new ≡ running sharing.now.total sharing.now.weights.now }
{
    let mut weight_so_far = 0;
    let mut given = 0;
    for (place, share) in out.iter_mut().enumerate() {
        weight_so_far += u64::from(sharing.weights[place]);
        let reached = sharing.part(weight_so_far);
        *share = reached - given;
        given = reached;
    }
}

impl Divider for Running {
    ghost shares = { λ _ t ws. running t ws };

    ghost exact = { λ d t ws fine. running_exact t ws fine };

    fn divide(&self, total: u64, weights: &[u32], out: &mut [u64]) -> Result<(), DivideRefusal> {
        let sharing = Sharing::new(total, weights, out.len())?;
        fill_running(&sharing, out);
        Ok(())
    }
}
