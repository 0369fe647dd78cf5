// Lives of three random sessions.
use crate::counting::Count;
use crate::drawing::draw_session;
use crate::judging::judge;
use crate::stages::new_stage;
use anyhow::Result;
use rand_core::SeedableRng;
use rand_pcg::Lcg128Xsl64;
use std::alloc::Global;

/// Sessions of a life.
const SESSIONS: u32 = 3;

/// Lives through random sessions, one of which at most has a call that fails: one block is spare.
fn live_once(alloc: Global, random: &mut Lcg128Xsl64, count: &mut Count) -> Result<()> {
    let mut stage = new_stage(alloc)?;
    let mut may_fail = true;
    for _ in 0..SESSIONS {
        let session = draw_session(alloc, random, &stage, may_fail)?;
        may_fail = may_fail && session.failures.is_empty();
        let judged = judge(alloc, stage, &session)?;
        count.add(&judged);
        stage = judged.stage;
    }
    Ok(())
}

/// Lives through so many lives.
pub(crate) fn live_random(alloc: Global, lives: u64, seed: u64) -> Result<Count> {
    let mut random = Lcg128Xsl64::seed_from_u64(seed);
    let mut count = Count::new();
    for _ in 0..lives {
        live_once(alloc, &mut random, &mut count)?;
    }
    Ok(count)
}
