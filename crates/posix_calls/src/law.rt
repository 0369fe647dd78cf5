// The laws of volumes on devices, each by a function that does nothing.
ghost use Rattle.std.specs.Prelude.{◌≡◌};
ghost use Rattle.nand_model.specs.Calls.{Device};
ghost use Rattle.posix_calls.specs.Calls.{VolumeGoesOn};
ghost use Rattle.posix_calls.specs.PageVolumes.{pages_of};
ghost use Rattle.posix_calls.specs.declared.page_volume.PageVolume.{PageVolume};
ghost use Rattle.posix_calls.specs.Endings.{IsUnmounted, LiesOn};
ghost use Rattle.posix_calls.specs.Mounts.{IsMounted};
ghost use Rattle.posix_profile.specs.declared.reply.Reply.{Reply};

use pages::Pages;

/// A device that was mounted, and that its volume gives back after some commands, is as honest in itself as it was before, whether its
/// flash was true or not.
pub fn a_device_given_back_is_as_honest<P: Pages>()
    ensures abandoned { (device back : Device) (v w : PageVolume P) → IsMounted P.state device v → VolumeGoesOn P.state v w
        → LiesOn (P.state (pages_of w)) back → back.honest_itself ≡ device.honest_itself }
    ensures unmounted { (device back : Device) (v w : PageVolume P) (reply : Reply) → IsMounted P.state device v → VolumeGoesOn P.state v w
        → IsUnmounted P.state w back reply → back.honest_itself ≡ device.honest_itself }
{}
