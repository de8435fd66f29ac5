// Examples worked out by hand, run against the crates.
#![tactic(auto)]

#[cfg(test)]
mod adoptions;
#[cfg(test)]
mod checks;
#[cfg(test)]
mod floors;
#[cfg(test)]
mod readings;
#[cfg(test)]
mod rings;
#[cfg(test)]
mod surveys;
