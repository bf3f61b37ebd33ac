// Tables of cases for division and its sheet. What they expect is worked out by hand from the rules.
#![tactic(auto)]

#[cfg(test)]
mod dividers;
#[cfg(test)]
mod worksheets;
