//! Folders that are packed into a volume over maps and unpacked, what a volume refuses, names on a host, what is listed, and runs that
//! are measured.
#![tactic(auto)]

#[cfg(test)]
mod bench;
#[cfg(test)]
mod folders;
#[cfg(test)]
mod hostile;
#[cfg(test)]
mod names;
#[cfg(test)]
mod rows;
#[cfg(test)]
mod salvaged;
