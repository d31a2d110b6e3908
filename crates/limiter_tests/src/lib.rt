// Executed vectors of the limiters.
#![tactic(auto)]

#[cfg(test)]
mod asked;
#[cfg(test)]
mod bounds;
#[cfg(test)]
mod draws;
#[cfg(test)]
mod reports;
