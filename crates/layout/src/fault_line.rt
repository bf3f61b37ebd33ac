ghost use Rattle.std.specs.Fmt.{with_newline};

use std::fmt;

// Why a command fails, and the end of the line.
#[derive_where(Clone, Copy)]
pub struct FaultLine<'a, F> {
    pub fault: &'a F,
}

impl<F: fmt::Display> fmt::Display for FaultLine<'_, F> {
    ghost output = { λ line. with_newline (F.output line.fault.now) };

    fn fmt<W: fmt::Write>(&self, f: &mut fmt::Formatter<W>) -> fmt::Result {
        writeln!(f, "{}", self.fault)
    }
}
