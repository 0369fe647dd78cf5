// Pages that are changed and committed.
ghost use Rattle.std.specs.Prelude.{◌≡◌, ◌⊎◌, ◌≤◌, true, false, length, OnOk, IfErr, IsErrOf};
ghost use Rattle.nand_model.specs.Counts.{ReadsFor, unfinished};
ghost use Rattle.pages.specs.Refreshing.{Refreshes};
ghost use Rattle.pages.specs.Stores.{GoesOn, CommittedAs, KeepsEither, StaysSame, CostsACommit, CommitsNothing, CutsCurrent, HasBufferFor, ChangeFailsBy, CommitFailsBy, bad_on, CanApply, MakesCurrent, BuffersPages, PaysChange, MakesDurable, EmptiesBuffer, IsIdle};
ghost use Rattle.volume_terms.specs.declared.fault.StoreFault.TheVariants as faults;

use crate::change::{Change, Cut};
use crate::store::Pages;
use volume_terms::StoreFault;

/// Pages that are changed, all of a change or none of it, and committed from one commit to the next.
///
/// After a fault other than `NoMemory` the store is sound no longer. Its device has the pages that were committed, or those that
/// were present.
pub trait PageStore: Pages {
    /// How many pages a change has at most.
    fn most_pages(&self) -> u32
        ensures { result ≡ (Self.state self.now).most };

    /// Makes a change of what is present, or none where memory is refused. What is present may be committed before.
    fn apply(&mut self, change: Change) -> Result<(), StoreFault>
        requires { CanApply (Self.state self.old) change.pages.items }
        ensures goes_on { GoesOn (Self.state self.old) (Self.state self.new) }
        ensures makes { (Self.state self.old).sound ≡ true → OnOk result (MakesCurrent change (Self.state self.old) (Self.state self.new)) }
        ensures buffers { OnOk result (BuffersPages change.pages.items (Self.state self.old) (Self.state self.new)) }
        ensures committed { (Self.state self.old).sound ≡ true → KeepsEither (Self.state self.old) (Self.state self.new) }
        // Where there is room beside what is buffered nothing is committed, and else once.
        ensures room { HasBufferFor (length change.pages.items) (Self.state self.old) → CommitsNothing (Self.state self.old) (Self.state self.new) }
        ensures pays { PaysChange (unfinished result) (Self.state self.old) (Self.state self.new) }
        ensures refused { IsErrOf result faults.NoMemory → StaysSame (Self.state self.old) (Self.state self.new) }
        ensures stops { IfErr result (λ fault. (fault ≡ faults.NoMemory) ⊎ ((Self.state self.new).sound ≡ false)) }
        ensures fault { (Self.state self.old).sound ≡ true → IfErr result (ChangeFailsBy (Self.state self.old) (Self.state self.new)) };

    /// Cuts pages of an object. It makes no call of the device and takes no memory.
    fn cut(&mut self, cut: Cut) -> Result<(), StoreFault>
        ensures goes_on { GoesOn (Self.state self.old) (Self.state self.new) }
        ensures sound { OnOk result ((Self.state self.old).sound ≡ true → (Self.state self.new).sound ≡ true) }
        ensures present { (Self.state self.old).sound ≡ true → OnOk result (CutsCurrent cut (Self.state self.old) (Self.state self.new)) }
        ensures committed { (Self.state self.old).sound ≡ true → CommittedAs (Self.state self.new) (Self.state self.old).committed }
        ensures device { (Self.state self.new).device ≡ (Self.state self.old).device }
        ensures next { (Self.state self.new).next ≡ (Self.state self.old).next }
        ensures in_buffer { (Self.state self.new).in_buffer ≤ (Self.state self.old).in_buffer }
        ensures memory { IsErrOf result faults.NoMemory → ⊥ }
        ensures stops { IfErr result (λ fault. (Self.state self.new).sound ≡ false) }
        ensures fault { (Self.state self.old).sound ≡ true → IfErr result (CommitFailsBy (Self.state self.old) (Self.state self.new)) };

    /// Keeps what is present: its device has all of it then. It takes no memory.
    fn commit(&mut self) -> Result<(), StoreFault>
        ensures goes_on { GoesOn (Self.state self.old) (Self.state self.new) }
        ensures makes { (Self.state self.old).sound ≡ true → OnOk result (MakesDurable (Self.state self.old) (Self.state self.new)) }
        ensures empties { OnOk result (EmptiesBuffer (Self.state self.old) (Self.state self.new)) }
        ensures committed { (Self.state self.old).sound ≡ true → KeepsEither (Self.state self.old) (Self.state self.new) }
        // Where nothing is buffered nothing is committed, and it is done.
        ensures idle { (Self.state self.old).in_buffer ≡ 0 → IsIdle (Self.state self.old) (Self.state self.new) result }
        ensures costs { CostsACommit (Self.state self.old) (Self.state self.new) }
        // What is buffered is written without a read.
        ensures reads { ReadsFor (Self.state self.old).in_buffer (Self.state self.old).device (Self.state self.new).device result }
        ensures memory { IsErrOf result faults.NoMemory → ⊥ }
        ensures stops { IfErr result (λ fault. (Self.state self.new).sound ≡ false) }
        ensures fault { (Self.state self.old).sound ≡ true → IfErr result (CommitFailsBy (Self.state self.old) (Self.state self.new)) };

    /// Moves the pages that are committed in a block into another, as a garbage collection does, so that the old ones are not needed any
    /// more. What is present and what is committed stay. It takes no memory. Of a block that keeps none it makes no call of the device.
    fn refresh(&mut self, block: u32) -> Result<(), StoreFault>
        ensures { Refreshes block (Self.state self.old) (Self.state self.new) result };

    /// A sound store has failed only where its device is gone.
    ghost lost: { (pages : Self) → (Self.state pages).sound ≡ true → (Self.state pages).failed ≡ true → (Self.state pages).device.gone ≡ true };

    /// A sound store that can be written has no more bad blocks than there are to spare.
    ghost within_limit: { (pages : Self) → (Self.state pages).sound ≡ true → (Self.state pages).worn ≡ false → bad_on (Self.state pages).device ≤ (Self.state pages).spare };
}
