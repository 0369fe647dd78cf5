// Sessions that the exerciser cuts.
use crate::counting::Count;
use crate::cuts::session_of;
use crate::stages::new_stage;
use anyhow::{Context, Result, anyhow};
use exerciser::cut;
use std::alloc::Global;

/// How many sessions of the same lines are cut.
const SESSIONS: u32 = 1000;

/// Counts the sessions that the exerciser's lines report, each by its sixth word, which says how many commands survived.
fn count_lines(answers: &str) -> Result<Count> {
    let mut count = Count::new();
    for line in answers.lines() {
        let committed = line.split_ascii_whitespace().nth(5);
        let committed = committed.context("a line without a number")?;
        count.add_cut(committed.parse().context("what survived")?);
    }
    Ok(count)
}

/// Has the exerciser cut sessions of these lines, each at a random call. It ends at the first that leaves a torn tree.
pub(crate) fn exercise_lines(alloc: Global, lines: &str) -> Result<Count> {
    let commands = session_of(alloc, lines)?.commands;
    let device = new_stage(alloc)?.device;
    let mut answers = Vec::new(alloc);
    match cut(alloc, device, commands, 1, SESSIONS, &mut answers) {
        Ok(()) => count_lines(str::from_utf8(&answers)?),
        Err(fault) => Err(anyhow!("the exerciser: {fault:?}")),
    }
}
