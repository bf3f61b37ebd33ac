use refusals::Refusal;
use std::fmt;

// A refusal, its number and why.
#[derive(Clone, Copy)]
pub struct RefusalText<R> {
    pub refusal: R,
}

impl<R: Refusal + fmt::Display + Copy> fmt::Display for RefusalText<R> {
    fn fmt<W: fmt::Write>(&self, f: &mut fmt::Formatter<W>) -> fmt::Result {
        let number = self.refusal.number();
        write!(f, "refused {number}: {}", self.refusal)
    }
}
