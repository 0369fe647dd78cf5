// Sessions that are cut at random calls of the device.
ghost use Rattle.std.specs.Prelude.{◌≡◌, ◌≤◌, ℕ, Some, IfOk, IfErr, OnOk};
ghost use Rattle.rand_core.specs.Stream.{next_u64};
ghost use Rattle.nand_model.specs.MemoryState.{device};
ghost use Rattle.exerciser.specs.Words.{answers, operation_of};
ghost use Rattle.powercut.specs.Living.{IsTrueOn};
ghost use Rattle.powercut.specs.Sessions.{IsEnded};
ghost use Rattle.powercut.specs.Starting.{fuse_of};
ghost use Rattle.exerciser.specs.Causes.{HasCause, MountsAs, WhyUndone, uncut};
ghost use Rattle.exerciser.specs.Draws.{words_after_session, drawn_fates, IsDrawnAmong};
ghost use Rattle.exerciser.specs.Cutting.{Cuts};
ghost use Rattle.exerciser.specs.Seen.{IsSeen, IsTorn};
ghost use Rattle.exerciser.specs.declared.fault.CutFault.TheVariants as faults;
ghost use Rattle.exerciser.specs.declared.seen.Seen.TheVariants as seens;

use crate::drawing::draw;
use crate::fault::CutFault;
use crate::looking::{KnownDevice, begin, count_calls, live_once, look};
use crate::reporting::tell;
use crate::seen::Seen;
use nand_model::{MemNand, Nand};
use posix_profile::Stamped;
use powercut::{Session, SessionEnd};
use rand_core::SeedableRng;
use rand_pcg::Lcg128Xsl64;
use std::alloc::Global;
use std::io::Write;

/// Sets where a session is cut that makes so many calls where it is not, and returns the call. Where memory is refused nothing
/// is taken.
fn set_fuse(
    alloc: Global,
    session: &mut Session,
    generator: &mut Lcg128Xsl64,
    calls: u64,
    pages: u32,
) -> Result<u64, CutFault>
    requires { 1 ≤ calls }
    ensures same { uncut session.new ≡ uncut session.old }
    ensures fuse { IfOk result (λ operation. fuse_of session.new.fuse ≡ Some (operation, drawn_fates pages (answers generator.old))) }
    ensures random { IfOk result (λ operation. operation ≡ operation_of calls (next_u64 (answers generator.old)).0) }
    ensures left { OnOk result (answers generator.new ≡ words_after_session pages (answers generator.old)) }
    ensures fault { IfErr result (λ e. e ≡ faults.NoMemory) }
{
    let (operation, fates) = draw(alloc, generator, calls, pages)?;
    session.fuse = Some((operation, fates));
    Ok(operation)
}

/// Draws where the session is cut, among the calls that it makes where it is not.
fn draw_fuse(
    alloc: Global,
    nand: &MemNand,
    session: &mut Session,
    generator: &mut Lcg128Xsl64,
    pages: u32,
) -> Result<u64, CutFault>
    ensures same { uncut session.new ≡ uncut session.old }
    ensures fuse { IfOk result (λ operation. fuse_of session.new.fuse ≡ Some (operation, drawn_fates pages (answers generator.old))) }
    ensures random { IfOk result (IsDrawnAmong (device nand.now) (uncut session.old) (next_u64 (answers generator.old)).0) }
    ensures left { OnOk result (answers generator.new ≡ words_after_session pages (answers generator.old)) }
    ensures fault { IfErr result (WhyUndone (device nand.now) session.old) }
{
    session.fuse = None;
    let calls = count_calls(alloc, nand, session)?.max(1);
    set_fuse(alloc, session, generator, calls, pages)
}

/// A session that was cut at a random call: the device that it left, how it ended, the call, and what a mount then shows.
#[derive(Drop)]
struct Exercised {
    device: MemNand,
    end: SessionEnd,
    operation: u64,
    seen: Seen,
}

/// Does a session that is cut at a random call, and mounts the device after it.
fn exercise(
    alloc: Global,
    known_device: KnownDevice,
    session: &mut Session,
    generator: &mut Lcg128Xsl64,
    pages: u32,
) -> Result<Exercised, CutFault>
    ensures same { uncut session.new ≡ uncut session.old }
    ensures fuse { IfOk result (λ done. fuse_of session.new.fuse ≡ Some (done.operation, drawn_fates pages (answers generator.old))) }
    ensures random { IfOk result (λ done. IsDrawnAmong (device known_device.device) (uncut session.old) (next_u64 (answers generator.old)).0 done.operation) }
    ensures left { OnOk result (answers generator.new ≡ words_after_session pages (answers generator.old)) }
    ensures ended { IfOk result (λ done. IsEnded session.new done.end (device known_device.device) (device done.device)) }
    ensures truth { IfOk result (λ done. IsTrueOn (device known_device.device) → IsTrueOn (device done.device)) }
    ensures seen { IfOk result (λ done. IsSeen known_device.tree session.old.commands.items done.end.replies.items done.seen) }
    ensures mounts { IfOk result (λ done. MountsAs (device done.device) known_device.tree session.old.commands.items done.end.replies.items done.seen) }
    ensures fault { IfErr result (WhyUndone (device known_device.device) session.old) }
{
    let KnownDevice { device, tree } = known_device;
    let operation = draw_fuse(alloc, &device, session, generator, pages)?;
    let (device, end) = live_once(alloc, device, session)?;
    let seen = look(alloc, &device, &tree, &session.commands, &end)?;
    Ok(Exercised {
        device,
        end,
        operation,
        seen,
    })
}

/// Where the sessions go on after this, if they do.
fn go_on(device: MemNand, seen: Seen) -> Result<KnownDevice, CutFault>
    ensures device { IfOk result (λ known_device. known_device.device ≡ device) }
    ensures committed { IfOk result (λ known_device. (count : ℕ) × (seen ≡ seens.Committed count known_device.tree)) }
    ensures torn { IfErr result (λ e. IsTorn seen × (e ≡ faults.Torn)) }
{
    match seen {
        Seen::Committed(_, tree) => Ok(KnownDevice { device, tree }),
        Seen::Torn(_) | Seen::Mount(_) => Err(CutFault::Torn),
    }
}

/// Does so many sessions of these commands in turn on the device, each cut at a call of the device that is random by the
/// seed, with random fates, and writes of each on a line what the mount after it finds. The first session without a tree that
/// it may leave is the last. The same seed gives the same lines.
pub fn cut<W: Write>(
    alloc: Global,
    nand: MemNand,
    script: Vec<Stamped>,
    seed: u64,
    sessions: u32,
    writer: &mut W,
) -> Result<(), CutFault>
    ensures reports { Cuts (record { first = device nand; seed = seed; commands = script.items; sessions = sessions }) (W.contents writer.old) (W.contents writer.new) result }
    ensures fault { IfErr result (HasCause (device nand)) }
{
    let commands = script.len() as u64;
    let mut session = Session {
        commands: script,
        fuse: None,
        failures: Vec::new(alloc),
        unmount: true,
    };
    let mut generator = Lcg128Xsl64::seed_from_u64(seed);
    let pages = nand.geometry().pages();
    let mut known_device = begin(alloc, nand)?;
    for before in 0..u64::from(sessions) {
        let done = exercise(alloc, known_device, &mut session, &mut generator, pages)?;
        let finding = done.seen.finding();
        tell(writer, before + 1, done.operation, finding, commands)?;
        known_device = go_on(done.device, done.seen)?;
    }
    Ok(())
}
