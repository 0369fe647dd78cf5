// Sessions of which each call fails, one at a time.
use crate::counting::Count;
use crate::cuts::{FATES, PAGES, session_of};
use crate::judging::{Stage, judge};
use crate::stages::new_stage;
use anyhow::Result;
use nand_model::Fate;
use powercut::Session;
use std::alloc::Global;

/// Lives through the session with one call that fails, after which no block is to spare.
fn fail_at(
    alloc: Global,
    stage: &Stage,
    session: &mut Session,
    hit: (u64, Fate),
    count: &mut Count,
) -> Result<()> {
    let (call, fate) = hit;
    session.failures.clear();
    session.failures.push((call, vec![in alloc; fate; PAGES]?))?;
    count.add(&judge(alloc, stage.copy()?, session)?);
    Ok(())
}

/// Lives through a session of these lines with each of its calls failing, one at a time.
pub(crate) fn fail_lines(alloc: Global, lines: &str) -> Result<Count> {
    let stage = new_stage(alloc)?;
    let mut session = session_of(alloc, lines)?;
    let calls = judge(alloc, stage.copy()?, &session)?.calls;
    let mut count = Count::new();
    for call in 0..calls {
        for fate in FATES {
            let hit = (call.saturating_add(1), fate);
            fail_at(alloc, &stage, &mut session, hit, &mut count)?;
        }
    }
    Ok(count)
}
