// The export of the comparison of two walks.
ghost use Rattle.std.specs.Prelude.{◌≡◌};
ghost use Rattle.walks.specs.Compare.{compared};
ghost use Rattle.refbridge.specs.Comparison.{returned};

use refbridge::comparison::RbWalks;

// Compares the reference's walk with the device's, lists what differs, and tells where the tail of the walk that outlasts the other is.
#[unsafe(no_mangle)]
pub extern "C" fn rb_compare_walks<'a>(
    reference: &'a [u8],
    device: &'a [u8],
    list: &mut [u8],
) -> RbWalks
    ensures { returned result list.new ≡ compared reference.now device.now list.old }
{
    refbridge::comparison::rb_compare_walks(reference, device, list)
}
