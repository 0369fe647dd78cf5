//! Tests of the program over images, lines and outputs that fail.
#![tactic(auto)]

#[cfg(test)]
mod around;
#[cfg(test)]
mod failing;
#[cfg(test)]
mod writing;
