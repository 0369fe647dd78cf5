//! Tests of a device whose driver is behind a port: each form of answer, packed tags, and a volume over a driver in
//! memory.
#![tactic(auto)]

#[cfg(test)]
mod answers;
#[cfg(test)]
mod chip;
#[cfg(test)]
mod packed_device;
#[cfg(test)]
mod packed_tags;
#[cfg(test)]
mod short_nand;
#[cfg(test)]
mod volumes;
