// The form of a score file: what is expected at each place of each of its lines.
ghost use Rattle.std.specs.Prelude.{◌≡◌, Decides, Some};
ghost use Rattle.scorefile.specs.Form.{heading_word, Fits, may_end, one, many, blend_form, expected_at};
ghost use Rattle.scorefile.specs.Texts.{heading_text, expected_text};

use score::PlainScorer;
use std::fmt;

// The lines of the file, in their order, named by the word with which each begins.
#[derive(Clone, Copy, Debug)]
pub enum Heading {
    Assigned,
    Historic,
    Previous,
    Signal,
    Points,
    Blend,
}

impl Heading {
    // The word with which the line begins.
    pub fn word(self) -> &'static str
        ensures { result.now ≡ heading_word self }
    {
        match self {
            Heading::Assigned => "assigned",
            Heading::Historic => "historic",
            Heading::Previous => "previous",
            Heading::Signal => "signal",
            Heading::Points => "points",
            Heading::Blend => "blend",
        }
    }

    // A line of one word after its heading.
    fn then_one(self, expected: Expected, place: usize) -> Expected
        ensures { result ≡ one self expected place }
    {
        match place {
            0 => Expected::Heading(self),
            1 => expected,
            _ => Expected::LineEnd,
        }
    }

    // A line of any number of numbers after its heading.
    fn then_many(self, place: usize) -> Expected
        ensures { result ≡ many self place }
    {
        match place {
            0 => Expected::Heading(self),
            _ => Expected::More,
        }
    }
}

impl fmt::Display for Heading {
    ghost output = { λ h. Some (heading_text h) };

    fn fmt<W: fmt::Write>(&self, f: &mut fmt::Formatter<W>) -> fmt::Result {
        write!(f, "the word '{}'", self.word())?;
        match self {
            Heading::Blend => f.write_str(" or the end of the file"),
            _ => Ok(()),
        }
    }
}

// What is expected at a place of a line.
#[derive(Clone, Copy, Debug)]
pub enum Expected {
    Heading(Heading),
    // A whole number from 0 to 4294967295.
    Whole,
    // A whole number from -2147483648 to 2147483647.
    Signed,
    // Another such number, or the end of the line.
    More,
    // The name of a scorer that is no blend.
    Scorer,
    LineEnd,
    FileEnd,
}

impl Expected {
    // What is expected at a place of a line, both counted from 0.
    pub(crate) fn at(line: usize, place: usize) -> Expected
        ensures { result ≡ expected_at line place }
    {
        match line {
            0 => Heading::Assigned.then_one(Expected::Whole, place),
            1 => Heading::Historic.then_one(Expected::Whole, place),
            2 => Heading::Previous.then_one(Expected::Signed, place),
            3 => Heading::Signal.then_many(place),
            4 => Heading::Points.then_many(place),
            5 => blend(place),
            _ => Expected::FileEnd,
        }
    }

    // Whether the word is what is expected.
    pub(crate) fn fits(self, word: &str) -> bool
        ensures { Decides result (Fits self word.now) }
    {
        match self {
            Expected::Heading(heading) => word == heading.word(),
            Expected::Whole => word.parse::<u32>().is_ok(),
            Expected::Signed | Expected::More => word.parse::<i32>().is_ok(),
            Expected::Scorer => word.parse::<PlainScorer>().is_ok(),
            Expected::LineEnd | Expected::FileEnd => false,
        }
    }

    // Whether a line may end where this is expected.
    pub(crate) fn may_end(self) -> bool
        ensures { result ≡ may_end self }
    {
        matches!(self, Expected::More | Expected::LineEnd)
    }
}

impl fmt::Display for Expected {
    ghost output = { λ e. Some (expected_text e) };

    fn fmt<W: fmt::Write>(&self, f: &mut fmt::Formatter<W>) -> fmt::Result {
        match self {
            Expected::Heading(heading) => write!(f, "{heading}"),
            Expected::Whole => f.write_str("a whole number from 0 to 4294967295"),
            Expected::Signed => f.write_str("a whole number from -2147483648 to 2147483647"),
            Expected::More => f.write_str(
                "a whole number from -2147483648 to 2147483647 or the end of the line",
            ),
            Expected::Scorer => f.write_str("'precision', 'band' or 'historic'"),
            Expected::LineEnd => f.write_str("the end of the line"),
            Expected::FileEnd => f.write_str("the end of the file"),
        }
    }
}

fn blend(place: usize) -> Expected
    ensures { result ≡ blend_form place }
{
    match place {
        0 => Expected::Heading(Heading::Blend),
        1 => Expected::Whole,
        2 | 3 => Expected::Scorer,
        _ => Expected::LineEnd,
    }
}
