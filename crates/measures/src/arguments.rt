// The arguments of a measure.

use anyhow::{Context, Result};

/// The number at a place among the words. `name` is what it is, for an error.
pub(crate) fn number(words: &[&str], place: usize, name: &'static str) -> Result<u32> {
    let word = words.get(place).context(name)?;
    let number = word.parse().context(name)?;
    Ok(number)
}
