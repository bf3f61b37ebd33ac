use score::{Blend, FULL_SCORE, PlainScorer};
use scorefile::ScoreRequest;
use scoresheet::ScoreSheet;
use std::fmt;

// The score by a blend, with the weights as they count.
fn write_blend<W: fmt::Write>(
    f: &mut fmt::Formatter<W>,
    blend: Blend<PlainScorer, PlainScorer>,
    score: u32,
) -> fmt::Result {
    let Blend { first, second, .. } = blend;
    let weight = blend.weight.min(FULL_SCORE);
    let rest = FULL_SCORE - weight;
    writeln!(
        f,
        "blend          {score:>11}  of {weight} {first} and {rest} {second}"
    )
}

// A score sheet as a table, with the request that it is of.
#[derive(Clone, Copy)]
pub struct ScoreTable<'a> {
    pub request: &'a ScoreRequest,
    pub sheet: &'a ScoreSheet,
}

impl fmt::Display for ScoreTable<'_> {
    fn fmt<W: fmt::Write>(&self, f: &mut fmt::Formatter<W>) -> fmt::Result {
        let ScoreSheet {
            mileage,
            last,
            largest,
            precision,
            band,
            historic,
            blend,
        } = *self.sheet;
        writeln!(f, "mileage        {mileage:>11}")?;
        writeln!(f, "last reading   {last:>11}")?;
        writeln!(
            f,
            "largest error  {:>11}  at point {}",
            largest.error, largest.point
        )?;
        writeln!(f, "precision      {precision:>11}")?;
        writeln!(f, "band           {band:>11}")?;
        writeln!(f, "historic       {historic:>11}")?;
        match (self.request.blend, blend) {
            (Some(blend), Some(score)) => write_blend(f, blend, score),
            _ => Ok(()),
        }
    }
}
