//! Tests of the crates of the log, most of which need several: the scan beside a plain search, an index by hand and that of a scan,
//! a move, a retirement and collections, call by call; and a checkpoint put together by hand: what a search finds, also after an
//! alteration of each rule, and what the allocation of its block and a move of committed pages leave, wherever the power is lost.
#![tactic(auto)]

#[cfg(test)]
mod collections;
#[cfg(test)]
mod committed;
#[cfg(test)]
mod index;
#[cfg(test)]
mod laid;
#[cfg(test)]
mod left;
#[cfg(test)]
mod moved;
#[cfg(test)]
mod moves;
#[cfg(test)]
mod refreshes;
#[cfg(test)]
mod retirements;
#[cfg(test)]
mod same;
#[cfg(test)]
mod scans;
#[cfg(test)]
mod searches;
#[cfg(test)]
mod summaries;
#[cfg(test)]
mod taken;
#[cfg(test)]
mod volumes;
#[cfg(test)]
mod worked;
#[cfg(test)]
mod worked_index;
