//! Tests of a volume on a device in memory, by lines of a shell: how the device is formatted, what sessions are answered, what is
//! left where power is lost, where calls fail and where memory is refused, flashes that no volume wrote, and a plain tree beside it.
#![tactic(auto)]

mod store;

pub use store::RefusingPages;

#[cfg(test)]
mod altered;
#[cfg(test)]
mod caches;
#[cfg(test)]
mod cuts;
#[cfg(test)]
mod devices;
#[cfg(test)]
mod expected;
#[cfg(test)]
mod failures;
#[cfg(test)]
mod formats;
#[cfg(test)]
mod images;
#[cfg(test)]
mod last_number;
#[cfg(test)]
mod numbers;
#[cfg(test)]
mod power_losses;
#[cfg(test)]
mod random;
#[cfg(test)]
mod refreshes;
#[cfg(test)]
mod refusals;
#[cfg(test)]
mod refused;
#[cfg(test)]
mod rows;
#[cfg(test)]
mod scenarios;
#[cfg(test)]
mod served;
#[cfg(test)]
mod sessions;
