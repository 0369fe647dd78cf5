// The calls of a port, for contracts alone.
ghost use Rattle.std.specs.Prelude.{◌≡◌, List, ◌∷◌, []};
ghost use base.Fml.{ftrue};
ghost use Rattle.port_nand.specs.Calls.{Call, call};

use crate::request::{Answer, Request};
use std::marker::Model;

/// A list of calls, the newest first, for contracts alone. It takes no memory.
#[derive(Drop)]
pub struct Calls {
    pub ghost list: { List Call },
}

impl Model for Calls {
    ghost also_owns = { λ _. ftrue };
}

impl Calls {
    /// The calls that a proof chooses here.
    fn noted() -> Calls
        ghost list: { List Call }
        ensures { result.list ≡ list }
    {
        Calls {}
    }

    fn chosen(&self, request: Request, bytes: &[u8], answer: Answer) -> Calls
        ghost list: { List Call }
        requires { list ≡ call request bytes.now answer ∷ self.now.list }
        ensures { result.list ≡ call request bytes.now answer ∷ self.now.list }
    {
        Calls::noted()
    }

    /// No call.
    pub fn new() -> Calls
        ensures { result.list ≡ [] }
    {
        Calls::noted()
    }

    /// One call more.
    pub fn with(&self, request: Request, bytes: &[u8], answer: Answer) -> Calls
        ensures { result.list ≡ call request bytes.now answer ∷ self.now.list }
    {
        self.chosen(request, bytes, answer)
    }
}
