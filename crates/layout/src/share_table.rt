ghost use Rattle.std.specs.Prelude.{◌≤◌};

use std::fmt;
use std::fmt::Style;
use worksheet::ShareSheet;

// How many digits a number has.
fn digits(number: u64) -> usize
    ensures { result ≤ 20 }
{
    number.checked_ilog10().map_or(1, |log| log as usize + 1)
}

// A row of the table. A proportion is a mixed number, `33 1/3`, where `rest` is above 0, and else a whole one.
#[derive(Clone, Copy)]
struct Row<P, N> {
    place: P,
    weight: N,
    whole: N,
    rest: u64,
    by_remainders: N,
    by_running: N,
}

// The columns of a sheet: their widths, and the denominator of all proportions. No entry passes a width: a weight is
// at most the sum of all, a share at most the total.
#[derive(Clone, Copy)]
struct Columns {
    weight_sum: u64,
    weight: usize,
    // of a proportion's whole part, and of its remainder
    whole: usize,
    rest: usize,
    share: usize,
    ghost few_digits: { rest ≤ 20 },
}

impl Columns {
    fn of(sheet: &ShareSheet) -> Columns {
        let whole = digits(sheet.total);
        let rest = digits(sheet.weight_sum);
        Columns {
            weight_sum: sheet.weight_sum,
            weight: rest.max(6),
            whole: whole.max(5),
            rest,
            share: whole.max(10),
        }
    }

    fn write_fraction<W: fmt::Write>(&self, f: &mut fmt::Formatter<W>, rest: u64) -> fmt::Result {
        if rest == 0 {
            let blank = "".width(self.rest + self.rest + 2);
            return write!(f, "{blank}");
        }
        let rest = rest.right().width(self.rest);
        write!(f, " {rest}/{}", self.weight_sum)
    }

    fn write<W: fmt::Write, P: fmt::Display + Copy, N: fmt::Display + Copy>(
        &self,
        f: &mut fmt::Formatter<W>,
        row: Row<P, N>,
    ) -> fmt::Result {
        let place = row.place.right().width(5);
        let weight = row.weight.right().width(self.weight);
        let whole = row.whole.right().width(self.whole);
        let by_remainders = row.by_remainders.right().width(self.share);
        let by_running = row.by_running.right().width(self.share);
        write!(f, "{place}  {weight}  {whole}")?;
        self.write_fraction(f, row.rest)?;
        writeln!(f, "  {by_remainders}  {by_running}")
    }
}

// A sheet of shares as a table.
#[derive(Clone, Copy)]
pub struct ShareTable<'a> {
    pub sheet: &'a ShareSheet,
}

impl fmt::Display for ShareTable<'_> {
    fn fmt<W: fmt::Write>(&self, f: &mut fmt::Formatter<W>) -> fmt::Result {
        let sheet = self.sheet;
        let columns = Columns::of(sheet);
        columns.write(
            f,
            Row {
                place: "place",
                weight: "weight",
                whole: "exact",
                rest: 0,
                by_remainders: "remainders",
                by_running: "running",
            },
        )?;
        for (place, line) in sheet.lines.iter().enumerate() {
            columns.write(
                f,
                Row {
                    place,
                    weight: u64::from(line.weight),
                    whole: line.whole,
                    rest: line.rest,
                    by_remainders: line.by_remainders,
                    by_running: line.by_running,
                },
            )?;
        }
        columns.write(
            f,
            Row {
                place: "sum",
                weight: sheet.weight_sum,
                whole: sheet.total,
                rest: 0,
                by_remainders: sheet.remainders_sum,
                by_running: sheet.running_sum,
            },
        )
    }
}
