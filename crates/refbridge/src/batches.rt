// The checker of batches, as a C host calls it.
ghost use Rattle.std.specs.Prelude.{◌≡◌};
ghost use Rattle.batch.specs.Check.{check_batch};

use batch::{RbBatch, check};

// Whether the set messages of a batch may be played in any order on a block.
pub fn rb_check_batch(block: &[u8], batch: &[u8]) -> RbBatch
    ensures { result ≡ check_batch block.now batch.now }
{
    check(block, batch)
}
