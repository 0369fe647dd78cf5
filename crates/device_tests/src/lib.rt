//! Tests of the devices in memory and in a file, and of the bytes of pages: what calls that are cut or fail leave, and tags, headers, slots,
//! checkpoints and block summaries by hand.
#![tactic(auto)]

#[cfg(test)]
mod calls;
#[cfg(test)]
mod checks;
#[cfg(test)]
mod fates;
#[cfg(test)]
mod headers;
#[cfg(test)]
mod image_files;
#[cfg(test)]
mod presence;
#[cfg(test)]
mod sizes;
#[cfg(test)]
mod slots;
#[cfg(test)]
mod summary_pages;
#[cfg(test)]
mod tags;
#[cfg(test)]
mod trusted;
