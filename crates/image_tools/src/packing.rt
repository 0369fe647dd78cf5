// A tree, put into a volume.
ghost use Rattle.std.specs.Prelude.{OnOk};
ghost use Rattle.image_tools.specs.Folders.{IsFolder, entries_of};
ghost use Rattle.image_tools.specs.Leaving.{Leaves};

use crate::alike::same_entries;
use crate::folder::Folder;
use crate::making::make;
use crate::unpacking::unpack;
use plain_volume::TreeFault;
use posix_profile::Answers;
use std::alloc::Global;

/// Makes the tree in a volume with an empty root, by its commands and with its moments, syncs it, and reads it back. The volume
/// needs a descriptor that is free. `Refused` with ENOSPC where it has no room. `Unlike` where what is there afterwards is not this
/// folder, as where the root was not empty or the entries are no tree. A fault leaves the volume with a part of it.
pub fn pack<V: Answers>(alloc: Global, folder: &Folder, volume: &mut V) -> Result<(), TreeFault>
    ensures { OnOk result (Leaves V.shows volume.old volume.new (λ objects. IsFolder objects (entries_of folder.now))) }
{
    make(alloc, volume, &folder.entries)?;
    let made = unpack(alloc, volume)?;
    if same_entries(&made.entries, &folder.entries) {
        Ok(())
    } else {
        Err(TreeFault::Unlike)
    }
}
