// A device is opened, by the form of its tags.
ghost use Rattle.std.specs.Prelude.{◌≡◌, false, IfOk};
ghost use Rattle.port_nand.specs.Opened.{driver_of, sizes_of};
ghost use Rattle.port_nand.specs.Opening.{IssuesAll};

use crate::PackedNand;
use crate::device::PortNand;
use crate::driver::Driver;
use crate::either_nand::EitherNand;
use crate::port::Port;
use crate::sizes::{OpenFault, TagForm};
use crate::small_device::SmallPortNand;
use nand_model::Nand;
use std::alloc::Global;

/// A device whose driver is behind a port, with tags of either form.
pub type PortDevice<P> = EitherNand<PortNand<P>, PackedNand<SmallPortNand<P>>>;

/// The device, powered up: no block has a next page. Its sizes are read, and in turn which of its blocks are marked.
pub fn open<P: Port + Drop>(alloc: Global, port: P) -> Result<PortDevice<P>, OpenFault>
    ensures power { IfOk result (λ d. (⟦<PortDevice<P> as Nand>⟧.state d).gone ≡ false) }
    ensures asks { IfOk result (λ d. IssuesAll (sizes_of d) (P.calls port) (P.calls (driver_of d).port)) }
{
    let (driver, tags) = Driver::open(alloc, port)?;
    match tags {
        TagForm::Whole => Ok(EitherNand::First(PortNand { driver })),
        TagForm::Packed => Ok(EitherNand::Second(PackedNand::new(SmallPortNand { driver }))),
    }
}

/// Gives the port back.
pub fn into_port<P: Port>(device: PortDevice<P>) -> P
    ensures { result ≡ (driver_of device).port }
{
    match device {
        EitherNand::First(device) => device.driver.port,
        EitherNand::Second(device) => device.into_inner().driver.port,
    }
}
