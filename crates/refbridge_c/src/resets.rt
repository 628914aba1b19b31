// The export of the reset of a power cycle.
ghost use Rattle.std.specs.Prelude.{◌≡◌};
ghost use Rattle.reset.specs.Reset.{reset_number, reset_block};

use refbridge::RbResult;

// Removes the static rows that do not outlast a reset.
#[unsafe(no_mangle)]
pub extern "C" fn rb_reset(block: &mut [u8]) -> RbResult
    ensures { (result.number ≡ reset_number block.old) × (result.count ≡ 0) × (result.offset ≡ 0) × (block.new ≡ reset_block block.old) }
{
    refbridge::resets::rb_reset(block)
}
