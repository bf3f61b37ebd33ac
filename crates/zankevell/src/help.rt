use crate::Failed;
use std::io;

const HELP: &str = "zankevell: exact settlement for a regulation pool

  zankevell share TOTAL WEIGHT...   share a whole total among weights, by both dividers
  zankevell score FILE              score one resource in one interval, by each scorer
  zankevell help                    print this

share prints a line for each place, numbered from 0: its weight, its exact proportion
of the total, and its share by largest remainders and by running sums; then the sums.
TOTAL is a whole number from 0 to 18446744073709551615, and each WEIGHT one from 0 to
4294967295. A total that cannot be shared is answered by the number of its refusal:

  refused 6     more than 32 weights
  refused 18    the weights add up to 0 and the total does not
  refused 19    the total times the sum of the weights is above 4000000000000000000

score reads a FILE (- for standard input) of these lines, in this order; what follows
a # is a comment, and lines without words are passed over:

  assigned KW             kW assigned to the resource, 100 to 200000
  historic SCORE          its historic score, 0 to 10000
  previous READING        the last reading of the interval before, or 0
  signal READING...       150 readings, one each two seconds, -10000 to 10000
  points KW...            up to 30 points of its response, one each ten seconds,
                          -1000000 to 1000000; points not given count as 0
  blend P SCORER SCORER   if wanted: a blend of two of precision, band and historic,
                          the first with weight P of 10000

It prints the signal's mileage and last reading, the largest error and the first point
that has it, and the score by each scorer. Signal, mileage and scores are in
ten-thousandths, errors in ten-thousandths of a kW. What cannot be scored is answered
by the number of its refusal:

  refused 4     more than 30 points
  refused 6     a number outside its range, or not 150 readings

A refusal is an answer, with status 0. Words or lines that are not of these forms are
reported on standard error with what was expected, with status 1.

Examples:
  zankevell share 100 1 1 1
  zankevell score interval.txt
";

pub(crate) fn show_help(rt: &HostRuntime) -> Result<(), Failed> {
    print!(rt; "{HELP}")?;
    Ok(())
}

// Reports a command that there is none of, and shows how to call the program.
pub(crate) fn wrong_command(rt: &HostRuntime, command: &str) -> Result<(), Failed> {
    if command.is_empty() {
        eprintln!(rt; "zankevell: expected a command, found nothing")?;
    } else {
        eprintln!(rt; "zankevell: expected a command, found '{command}'")?;
    }
    eprint!(rt; "\n{HELP}")?;
    Err(Failed::Told)
}
