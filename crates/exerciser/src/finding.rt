// What a mount finds after a session that was cut.
ghost use Rattle.std.specs.Prelude.{◌≡◌};
ghost use Rattle.exerciser.specs.Lines.{mount_name};

use posix_calls::MountFault;

/// What a mount finds after a session that was cut.
#[derive(Clone, Copy, Debug, PartialEq, Eq)]
pub enum Finding {
    /// The tree after so many commands of the session.
    Committed(u64),
    /// A tree that the session may not leave.
    Torn,
    /// No volume.
    Mount(MountFault),
}

/// The name of a mount's fault.
pub fn mount_fault_name(fault: MountFault) -> &'static [u8]
    ensures { result.now ≡ mount_name fault }
{
    match fault {
        MountFault::Gone => b"Gone",
        MountFault::NoMemory => b"NoMemory",
        MountFault::NotAVolume => b"NotAVolume",
        MountFault::Newer(_) => b"Newer",
        MountFault::Damaged => b"Damaged",
    }
}
