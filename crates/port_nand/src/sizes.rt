// The sizes of a device, as its driver says them.
ghost use Rattle.std.specs.Prelude.{◌≡◌, ◌≤◌, OnOk, IfOk};
ghost use Rattle.port_nand.specs.Opening.{AreSizes, size_at, tag_bytes};
ghost use Rattle.port_nand.specs.declared.request.Answer.TheVariants as answers;
ghost use Rattle.port_nand.specs.declared.sizes.OpenFault.TheVariants as faults;

use crate::request::Answer;
use nand_model::Geometry;
use std::alloc::AllocError;

/// Why a device was not opened.
#[derive(Clone, Copy, Debug, PartialEq, Eq)]
pub enum OpenFault {
    /// An answer is none: power is gone.
    Gone,
    NoMemory,
    /// The sizes of the device did not come, or a device has none such.
    BadGeometry,
}

impl From<AllocError> for OpenFault {
    ghost from_gives = { λ _ e. e ≡ faults.NoMemory };

    fn from(_error: AllocError) -> OpenFault {
        OpenFault::NoMemory
    }
}

/// What is held of a tag with a page.
#[derive(Clone, Copy, Debug, PartialEq, Eq)]
pub enum TagForm {
    /// Its 48 bytes.
    Whole,
    /// The 24 bytes of a packed tag.
    Packed,
}

/// What a driver says of its device.
#[derive(Clone, Copy, Debug, PartialEq, Eq)]
pub struct Sizes {
    pub geometry: Geometry,
    pub tags: TagForm,
}

/// The number in four bytes from a place on, the lowest first.
fn number_at(bytes: &[u8; 16], place: usize) -> u32
    requires { place ≤ 12 }
    ensures { result ≡ size_at bytes.now place }
{
    u32::from_le_bytes([
        bytes[place],
        bytes[place + 1],
        bytes[place + 2],
        bytes[place + 3],
    ])
}

/// The form of tags of so many bytes.
fn form_of(bytes: u32) -> Result<TagForm, OpenFault>
    ensures { IfOk result (λ form. tag_bytes form ≡ bytes) }
{
    match bytes {
        48 => Ok(TagForm::Whole),
        24 => Ok(TagForm::Packed),
        _ => Err(OpenFault::BadGeometry),
    }
}

/// The sizes of the device, as they came.
pub(crate) fn sizes_of(bytes: &[u8; 16], answer: Answer) -> Result<Sizes, OpenFault>
    ensures answer { OnOk result (answer ≡ answers.Zero) }
    ensures sizes { IfOk result (λ sizes. AreSizes sizes bytes.now) }
{
    if answer != Answer::Zero {
        return Err(OpenFault::BadGeometry);
    }
    let geometry = Geometry::new(
        number_at(bytes, 0),
        number_at(bytes, 4),
        number_at(bytes, 8),
    );
    match geometry {
        Ok(geometry) => Ok(Sizes {
            geometry,
            tags: form_of(number_at(bytes, 12))?,
        }),
        Err(_) => Err(OpenFault::BadGeometry),
    }
}
