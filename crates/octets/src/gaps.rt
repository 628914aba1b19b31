// Opening and closing a gap: the octets behind it move up or down within the slice.
ghost use Rattle.std.specs.Prelude.{◌≡◌, ◌+◌, ◌≤◌, length};
ghost use Rattle.octets.specs.Gaps.{opened, closed};

use super::parts::clear;

// The octets from index from up to index to are moved up by w, and the gap is cleared.
pub fn open_gap(s: &mut [u8], from: usize, to: usize, w: usize)
    requires { (from ≤ to) × (to + w ≤ length s.old) }
    ensures { s.new ≡ opened s.old from to w }
{
    s.copy_within(from..to, from + w);
    clear(s, from, w);
}

// w octets from index from are taken out, those up to index to moved down, and the freed end is cleared.
pub fn close_gap(s: &mut [u8], from: usize, to: usize, w: usize)
    requires { (from + w ≤ to) × (to ≤ length s.old) }
    ensures { s.new ≡ closed s.old from to w }
{
    s.copy_within(from + w..to, from);
    clear(s, to - w, w);
}
