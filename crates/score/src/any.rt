ghost use Rattle.std.specs.Prelude.{Some, MatchResult};
ghost use Rattle.score.specs.Names.{name_of, Named, NoName};
ghost use Rattle.score.specs.Choices.{plain_rating, any_rating};
ghost use Rattle.score.specs.Laws.{plain_bounded, plain_outside, plain_monotone};
ghost use Rattle.score.specs.AnyLaws.{any_bounded, any_outside, any_monotone};

use crate::band::Band;
use crate::blend::Blend;
use crate::historic::Historic;
use crate::performance::Performance;
use crate::precision::Precision;
use crate::scorer::Scorer;
use std::fmt;
use std::str::FromStr;
use thiserror::Error;

// A scorer that is no blend, chosen at run time. Its text is its name.
#[derive(Clone, Copy, PartialEq, Eq, Debug)]
pub enum PlainScorer {
    Precision,
    Band,
    Historic,
}

// A word that is no scorer's name.
#[derive(Clone, Copy, PartialEq, Eq, Debug, Error)]
#[error("expected 'precision', 'band' or 'historic'")]
pub struct UnknownScorer;

impl FromStr for PlainScorer {
    type Err = UnknownScorer;

    ghost from_str_gives = { λ word r. MatchResult r (Named word) (λ _. NoName word) };

    fn from_str(word: &str) -> Result<PlainScorer, UnknownScorer> {
        match word {
            "precision" => Ok(PlainScorer::Precision),
            "band" => Ok(PlainScorer::Band),
            "historic" => Ok(PlainScorer::Historic),
            _ => Err(UnknownScorer),
        }
    }
}

impl fmt::Display for PlainScorer {
    ghost output = { λ s. Some (name_of s) };

    fn fmt<W: fmt::Write>(&self, f: &mut fmt::Formatter<W>) -> fmt::Result {
        f.write_str(match self {
            PlainScorer::Precision => "precision",
            PlainScorer::Band => "band",
            PlainScorer::Historic => "historic",
        })
    }
}

impl Scorer for PlainScorer {
    ghost rating = { plain_rating };

    ghost bounded = { plain_bounded };

    ghost outside = { plain_outside };

    ghost monotone = { plain_monotone };

    fn score(&self, performance: &Performance) -> u32 {
        match self {
            PlainScorer::Precision => Precision.score(performance),
            PlainScorer::Band => Band.score(performance),
            PlainScorer::Historic => Historic.score(performance),
        }
    }
}

// A scorer that is chosen at run time.
#[derive(Clone, Copy)]
pub enum AnyScorer {
    Plain(PlainScorer),
    Blend(Blend<PlainScorer, PlainScorer>),
}

impl Scorer for AnyScorer {
    ghost rating = { any_rating };

    ghost bounded = { any_bounded };

    ghost outside = { any_outside };

    ghost monotone = { any_monotone };

    fn score(&self, performance: &Performance) -> u32 {
        match self {
            AnyScorer::Plain(plain) => plain.score(performance),
            AnyScorer::Blend(blend) => blend.score(performance),
        }
    }
}
