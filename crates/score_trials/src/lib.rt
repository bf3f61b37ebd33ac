// Tables of cases from the signal to the score and its sheet. What they expect is worked out by hand from the rules.
#![tactic(auto)]

#[cfg(test)]
mod score_files;
#[cfg(test)]
mod scorers;
#[cfg(test)]
mod tracking;
