// What stops a session, by a function that does nothing.
ghost use Rattle.flash_program.specs.Stopping.{OnlyACutStops};

use flash_tree::a_flash_has_one_answer_at_most;
use nand_model::{Nand, TrustedNand};

/// In a session that the program makes of lines nothing but a loss of power is answered EIO, as long as the spare blocks and the
/// numbers of an honest device suffice.
pub fn only_a_cut_stops_the_program<N: Nand>()
    ensures { OnlyACutStops ⟦<TrustedNand<N> as Nand>⟧ }
{
    a_flash_has_one_answer_at_most();
}
