//! Directories, files and a tree of both over pages in memory, beside maps from names and lists of bytes; names at their
//! limits, and the sizes of a volume.
#![tactic(auto)]

#[cfg(test)]
mod files;
#[cfg(test)]
mod folders;
#[cfg(test)]
mod hashes;
#[cfg(test)]
mod objects;
#[cfg(test)]
mod refusals;
#[cfg(test)]
mod store;
#[cfg(test)]
mod terms;
