// The reset of a power cycle, as a C host calls it.
ghost use Rattle.std.specs.Prelude.{◌≡◌};
ghost use Rattle.reset.specs.Reset.{reset_number, reset_block};

use super::{RbResult, numbered, refused};
use legality::is_legal;
use message::refusals::Reason;
use reset::reset;

// Removes the static rows that do not outlast a reset.
pub fn rb_reset(block: &mut [u8]) -> RbResult
    ensures { (result.number ≡ reset_number block.old) × (result.count ≡ 0) × (result.offset ≡ 0) × (block.new ≡ reset_block block.old) }
{
    if !is_legal(block) {
        return refused(Reason::BlockNotLegal);
    }
    reset(block);
    numbered(0)
}
