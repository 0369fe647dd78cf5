//! Tests of the picture of a chip, of the check of a volume and of a salvage: a flash with each state of a page, and a small tree with
//! an alteration of each rule and each page lost in turn, put together by hand.
#![tactic(auto)]

#[cfg(test)]
mod damaged;
#[cfg(test)]
mod dumped;
#[cfg(test)]
mod laid;
#[cfg(test)]
mod salvaged;
#[cfg(test)]
mod shown;
