//! Tests of lives: sessions of lines on a device in memory, which is cut, fails, and is mounted again; the sessions that the
//! exerciser cuts, and what it draws.
#![tactic(auto)]

#[cfg(test)]
mod draws;
#[cfg(test)]
mod exercises;
#[cfg(test)]
mod lines;
#[cfg(test)]
mod scenarios;
#[cfg(test)]
mod sessions;
#[cfg(test)]
mod torn;
#[cfg(test)]
mod worked;
