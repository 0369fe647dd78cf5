// The steps of a scenario.
use anyhow::{Result, anyhow};
use std::alloc::Global;

/// A step: its line, and the lines after it, up to the next step.
#[derive(Drop)]
pub(crate) struct Step<'a> {
    pub(crate) line: &'a str,
    pub(crate) input: String,
}

/// Whether a line is a step.
fn is_step(line: &str) -> bool {
    matches!(line.as_bytes().first(), Some(b'#' | b'$' | b'!' | b'?'))
}

/// Puts a line behind the lines of the last step.
fn put_line(steps: &mut Vec<Step<'_>>, line: &str) -> Result<()> {
    let Some(step) = steps.last_mut() else {
        return Err(anyhow!("a scenario begins with a step"));
    };
    step.input.push_str(line)?;
    step.input.push('\n')?;
    Ok(())
}

/// The steps of a scenario, in turn.
pub(crate) fn steps_of<'a>(alloc: Global, scenario: &'a str) -> Result<Vec<Step<'a>>> {
    let mut steps = Vec::new(alloc);
    for line in scenario.lines() {
        if is_step(line) {
            steps.push(Step {
                line,
                input: String::new(alloc),
            })?;
        } else {
            put_line(&mut steps, line)?;
        }
    }
    Ok(steps)
}
