// What is done between a power-up and the end of a session, on any device.
ghost use Rattle.std.specs.Prelude.{◌≡◌, true, false, is_some, IfOk};
ghost use Rattle.nand_model.specs.Calls.{Lasts};
ghost use Rattle.page_store.specs.Checked.{HasTrueFlash};
ghost use Rattle.page_store.specs.PagesOf.{mounted_pages};
ghost use Rattle.posix_calls.specs.Volumes.{over_pages};
ghost use Rattle.powercut.specs.Commands.{IsUsed, meaning_of};
ghost use Rattle.powercut.specs.Serving.{HasServed, IsServed, IsServedRight};

use crate::commands::do_commands;
use flash_tree::a_flash_has_one_answer_at_most;
use nand_model::Nand;
use posix_calls::{MountFault, Reply, Stamped, Volume};
use std::alloc::{AllocError, Global};

/// What was answered in a session.
#[derive(Drop)]
pub(crate) struct Served {
    pub mounted: Result<(), MountFault>,
    pub replies: Vec<Reply>,
    pub unmounted: Option<Reply>,
}

/// Does the commands on a mounted volume, and unmounts or abandons it.
fn use_volume<N: Nand + Drop>(
    alloc: Global,
    mut volume: Volume<N>,
    commands: &[Stamped],
    unmount: bool,
) -> Result<(N, Vec<Reply>, Option<Reply>), AllocError>
    ensures used { IfOk result (λ r. IsUsed (meaning_of mounted_pages over_pages) volume commands.now r.1.items r.2 (N.state r.0)) }
    ensures unmounts { IfOk result (λ r. is_some r.2 ≡ unmount) }
{
    let replies = do_commands(alloc, &mut volume, commands)?;
    if unmount {
        let (device, reply) = volume.unmount();
        Ok((device, replies, Some(reply)))
    } else {
        Ok((volume.abandon(), replies, None))
    }
}

/// Mounts the device, does the commands, and unmounts or abandons the volume. A mount that fails leaves the device.
pub(crate) fn serve<N: Nand + Drop>(
    alloc: Global,
    device: N,
    commands: &[Stamped],
    unmount: bool,
) -> Result<(N, Served), AllocError>
    ensures lasts { IfOk result (λ r. (N.state r.0).honest ≡ (N.state device).honest → Lasts (N.state device) (N.state r.0)) }
    ensures lived { (N.state device).gone ≡ false → (N.state device).honest ≡ true
        → IfOk result (λ r. HasServed (N.state device) (N.state r.0) commands.now r.1) }
    ensures served { IfOk result (λ r. IsServed commands.now unmount (N.state r.0) r.1) }
    ensures right { HasTrueFlash (N.state device) → IfOk result (λ r. IsServedRight (N.state device) (N.state r.0) commands.now r.1) }
{
    a_flash_has_one_answer_at_most();
    match Volume::mount(alloc, device) {
        Ok(volume) => {
            let (device, replies, unmounted) = use_volume(alloc, volume, commands, unmount)?;
            Ok((
                device,
                Served {
                    mounted: Ok(()),
                    replies,
                    unmounted,
                },
            ))
        }
        Err((device, fault)) => Ok((
            device,
            Served {
                mounted: Err(fault),
                replies: Vec::new(alloc),
                unmounted: None,
            },
        )),
    }
}
