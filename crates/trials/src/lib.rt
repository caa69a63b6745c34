// Examples that a reader wants to see run, and a measure of two weights that generic code must bear.
#![tactic(auto)]

#[cfg(test)]
mod files;
#[cfg(test)]
mod limits;
#[cfg(test)]
mod measures;
pub mod reach;
