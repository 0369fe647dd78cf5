// Sessions that are cut at each of their calls, and then once more in the next session, which mounts and unmounts.
use crate::counting::Count;
use crate::judging::{Stage, judge};
use crate::stages::new_stage;
use anyhow::{Result, anyhow};
use line_shell::read_script;
use nand_model::Fate;
use posix_calls::Stamped;
use powercut::Session;
use std::alloc::Global;

/// All that a cut may leave of a page.
pub(crate) const FATES: [Fate; 4] = [Fate::Old, Fate::New, Fate::Erased, Fate::Uncorrectable];

/// Calls of the next session that are cut too, where it has so many.
const SECOND: [u64; 3] = [1, 100, 256];

/// Pages of a block.
pub(crate) const PAGES: usize = 32;

/// Cuts one call, alone and before each cut of the next session, which has no commands and is unmounted. So each call and fate
/// counts as four sessions, cut or not.
fn cut_at(
    alloc: Global,
    stage: &Stage,
    session: &mut Session,
    call: u64,
    fate: Fate,
    count: &mut Count,
) -> Result<()> {
    session.fuse = Some((call, vec![in alloc; fate; PAGES]?));
    let judged = judge(alloc, stage.copy()?, session)?;
    count.add(&judged);
    for second in SECOND {
        let again = Session {
            commands: Vec::new(alloc),
            fuse: Some((second, vec![in alloc; fate; PAGES]?)),
            failures: Vec::new(alloc),
            unmount: true,
        };
        count.add(&judge(alloc, judged.stage.copy()?, &again)?);
    }
    Ok(())
}

/// Cuts each call of a session.
fn cut_each(alloc: Global, stage: &Stage, session: &mut Session, count: &mut Count) -> Result<()> {
    session.fuse = None;
    let calls = judge(alloc, stage.copy()?, session)?.calls;
    for call in 0..calls {
        for fate in FATES {
            cut_at(alloc, stage, session, call.saturating_add(1), fate, count)?;
        }
    }
    Ok(())
}

/// The commands of these lines.
fn commands_of(alloc: Global, lines: &str) -> Result<Vec<Stamped>> {
    let mut reader = lines.as_bytes();
    match read_script(alloc, &mut reader) {
        Ok(commands) => Ok(commands),
        Err(fault) => Err(anyhow!("the lines: {fault:?}")),
    }
}

/// A session of these lines that is not disturbed, and unmounted at its end.
pub(crate) fn session_of(alloc: Global, lines: &str) -> Result<Session> {
    Ok(Session {
        commands: commands_of(alloc, lines)?,
        fuse: None,
        failures: Vec::new(alloc),
        unmount: true,
    })
}

/// Cuts each call of a session of these lines, of which the given call fails too.
pub(crate) fn cut_lines(alloc: Global, lines: &str, failure: Option<(u64, Fate)>) -> Result<Count> {
    let mut session = session_of(alloc, lines)?;
    if let Some((call, fate)) = failure {
        session.failures.push((call, vec![in alloc; fate; PAGES]?))?;
    }
    let mut count = Count::new();
    cut_each(alloc, &new_stage(alloc)?, &mut session, &mut count)?;
    Ok(count)
}
