// Why the program ended otherwise than well.
ghost use Rattle.std.specs.Prelude.{◌≡◌};
ghost use Rattle.flash_program.specs.Images.{of_script};
ghost use Rattle.flash_program.specs.Statuses.{fault_name, fault_status, format_name, image_name, shell_name};

use exerciser::mount_fault_name;
use line_shell::{ScriptFault, ShellFault};
use nand_image::ImageFault;
use posix_calls::{FormatFault, MountFault};
use thiserror::Error;

/// Why the program ended otherwise than well. Its line on standard error has the name, and not the text.
#[derive(Clone, Copy, Debug, PartialEq, Eq, Error)]
pub enum ProgramFault {
    #[error("memory was refused: free some, then run the program again")]
    NoMemory,
    #[error("no device has these sizes: `--help` has the limits of a page, a block and a device")]
    BadGeometry,
    #[error("the image's file could not be opened: check its path and its permissions")]
    File,
    /// The image could not be opened or made.
    #[error(transparent)]
    Image(ImageFault),
    /// The device of a new volume could not be formatted.
    #[error(transparent)]
    Format(FormatFault),
    /// The volume could not be mounted.
    #[error(transparent)]
    Mount(MountFault),
    /// The shell ended early, or the reading of a script as a shell would.
    #[error(transparent)]
    Shell(ShellFault),
    #[error("the volume could not be unmounted: what was not synced may be missing; run `check`")]
    Unmount,
    #[error("a line is not a command: `run` replies `bad line` to each such line")]
    Line,
    #[error("a tree could not be read by commands: a path is too long, or there is no room to build it again")]
    Unread,
    #[error("a power loss left a tree that it must not: report it, with the image, the seed and the lines")]
    Torn,
    /// Standard output failed outside the shell.
    #[error("standard output could not be written: check where it goes")]
    Write,
}

impl From<ScriptFault> for ProgramFault {
    ghost from_gives = { λ fault e. e ≡ of_script fault };

    fn from(fault: ScriptFault) -> ProgramFault {
        match fault {
            ScriptFault::Read => ProgramFault::Shell(ShellFault::Read),
            ScriptFault::TooLong => ProgramFault::Shell(ShellFault::TooLong),
            ScriptFault::NoMemory => ProgramFault::NoMemory,
            ScriptFault::Line => ProgramFault::Line,
        }
    }
}

fn image_name(fault: ImageFault) -> &'static [u8]
    ensures { result.now ≡ image_name fault }
{
    match fault {
        ImageFault::Read => b"Read",
        ImageFault::Write => b"Write",
        ImageFault::Size => b"Size",
        ImageFault::Magic => b"Magic",
        ImageFault::BadGeometry => b"BadGeometry",
        ImageFault::NoMemory => b"NoMemory",
    }
}

fn format_name(fault: FormatFault) -> &'static [u8]
    ensures { result.now ≡ format_name fault }
{
    match fault {
        FormatFault::Spare => b"Spare",
        FormatFault::NoMemory => b"NoMemory",
        FormatFault::Worn => b"Worn",
        FormatFault::Gone => b"Gone",
    }
}

fn shell_name(fault: ShellFault) -> &'static [u8]
    ensures { result.now ≡ shell_name fault }
{
    match fault {
        ShellFault::Read => b"Read",
        ShellFault::TooLong => b"TooLong",
        ShellFault::Write => b"Write",
        ShellFault::NoMemory => b"NoMemory",
    }
}

impl ProgramFault {
    /// The name that is reported.
    pub(crate) fn name(self) -> &'static [u8]
        ensures { result.now ≡ fault_name self }
    {
        match self {
            ProgramFault::NoMemory => b"NoMemory",
            ProgramFault::BadGeometry => b"BadGeometry",
            ProgramFault::File => b"File",
            ProgramFault::Image(fault) => image_name(fault),
            ProgramFault::Format(fault) => format_name(fault),
            ProgramFault::Mount(fault) => mount_fault_name(fault),
            ProgramFault::Shell(fault) => shell_name(fault),
            ProgramFault::Unmount => b"EIO",
            ProgramFault::Line => b"Line",
            ProgramFault::Unread => b"Unread",
            ProgramFault::Torn => b"Torn",
            ProgramFault::Write => b"Write",
        }
    }

    /// The status that the program ends with.
    pub(crate) fn status(self) -> u8
        ensures { result ≡ fault_status self }
    {
        match self {
            ProgramFault::Torn => 3,
            ProgramFault::Shell(_) | ProgramFault::Line | ProgramFault::Write => 4,
            _ => 2,
        }
    }
}
