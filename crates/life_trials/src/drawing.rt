// Random sessions.
use crate::commands::{below, draw_command};
use crate::judging::{Stage, judge};
use anyhow::Result;
use exerciser::draw;
use nand_model::Fate;
use posix_calls::Stamped;
use powercut::Session;
use rand_pcg::Lcg128Xsl64;
use std::alloc::Global;

/// Pages of a block, whose fates are random.
const PAGES: u32 = 32;

fn draw_commands(alloc: Global, random: &mut Lcg128Xsl64) -> Result<Vec<Stamped>> {
    let mut commands = Vec::new(alloc);
    for _ in 0..below(random, 32) {
        commands.push(draw_command(alloc, random)?)?;
    }
    Ok(commands)
}

/// A call of these and what it leaves.
fn draw_call(alloc: Global, random: &mut Lcg128Xsl64, calls: u64) -> Result<(u64, Vec<Fate>)> {
    Ok(draw(alloc, random, calls.max(1), PAGES)?)
}

/// A session of commands of all kinds. Two of three are cut at one of their calls, and a call fails in one of four, if
/// one may.
pub(crate) fn draw_session(
    alloc: Global,
    random: &mut Lcg128Xsl64,
    stage: &Stage,
    may_fail: bool,
) -> Result<Session> {
    let mut session = Session {
        commands: draw_commands(alloc, random)?,
        fuse: None,
        failures: Vec::new(alloc),
        unmount: below(random, 2) == 0,
    };
    let calls = judge(alloc, stage.copy()?, &session)?.calls;
    if below(random, 3) > 0 {
        session.fuse = Some(draw_call(alloc, random, calls)?);
    }
    if may_fail && below(random, 4) == 0 {
        session.failures.push(draw_call(alloc, random, calls)?)?;
    }
    Ok(session)
}
