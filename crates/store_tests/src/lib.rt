//! Tests of a store on a device in memory: changes and commits beside two plain maps, calls that are cut or fail, memory that
//! is refused (in turn by hand: the gate refuses none), and what is read; which page its cache lets go; and the pages of a
//! worn device.
#![tactic(auto)]

#[cfg(test)]
mod appending;
#[cfg(test)]
mod caching;
#[cfg(test)]
mod committing;
#[cfg(test)]
mod cuts;
#[cfg(test)]
mod edits;
#[cfg(test)]
mod opening;
#[cfg(test)]
mod plain;
#[cfg(test)]
mod random;
#[cfg(test)]
mod reading;
#[cfg(test)]
mod refusals;
#[cfg(test)]
mod summaries;
#[cfg(test)]
mod worn;
