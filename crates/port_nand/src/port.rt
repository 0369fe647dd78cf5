// The way to a driver.
ghost use Rattle.std.specs.Prelude.{◌≡◌, List, ◌∷◌};
ghost use Rattle.port_nand.specs.Calls.{Call, call};

use crate::request::{Answer, Request};

/// The way to the driver of a device. Each call asks one thing, and is answered.
pub trait Port {
    /// The calls so far, the newest first.
    ghost calls: { Self → List Call };

    /// Issues for something, which comes into the buffer.
    fn read(&mut self, request: Request, buffer: &mut [u8]) -> Answer
        ensures { calls self.new ≡ call request buffer.new result ∷ calls self.old };

    /// Issues for something with these bytes.
    fn write(&mut self, request: Request, bytes: &[u8]) -> Answer
        ensures { calls self.new ≡ call request bytes.now result ∷ calls self.old };
}
