// A salvage that is open, whose device is behind a port.

use crate::session::FileNand;
use salvage::Salvage;

/// What is left of a volume, whose device is behind a port.
#[derive(Drop)]
pub struct SalvageSession {
    pub(crate) salvage: Salvage<FileNand>,
}
