// The export of the checker of batches.
ghost use Rattle.std.specs.Prelude.{◌≡◌};
ghost use Rattle.batch.specs.Check.{check_batch};

use batch::RbBatch;

// Whether the set messages of a batch may be played in any order on a block.
#[unsafe(no_mangle)]
pub extern "C" fn rb_check_batch(block: &[u8], batch: &[u8]) -> RbBatch
    ensures { result ≡ check_batch block.now batch.now }
{
    refbridge::batches::rb_check_batch(block, batch)
}
