// Names in octets, four for each sub-id: how they stand to a prefix and to each other, and their octets.
ghost use Rattle.std.specs.Prelude.{◌≡◌, ◌+◌, ◌*◌, ◌≤◌, length};
ghost use Rattle.octets.specs.Parts.{patch};
ghost use Rattle.names.specs.Order.{side_of, relation};
ghost use Rattle.names.specs.SubIds.{subids, name_octets};

use names::order::Side;
use octets::numbers::{be4, put_be4};
use std::cmp::Ordering;

// How the name stands to a prefix.
pub fn stands(name: &[u8], prefix: &[u32]) -> Side
    ensures { result ≡ side_of (subids name.now) prefix.now }
{
    for (i, p) in prefix.iter().enumerate() {
        if name.len() - 4 * i < 4 {
            return Side::Below;
        }
        // Two tests: by an Ordering, which compiled code makes a number first, a look-up has a third more instructions.
        let x = be4(name, 4 * i);
        if x < *p {
            return Side::Below;
        }
        if *p < x {
            return Side::Above;
        }
    }
    Side::Prefix
}

// Puts the octets of sub-ids from index at on.
pub fn put_subids(s: &mut [u8], at: usize, ids: &[u32])
    requires { at + 4 * length ids.now ≤ length s.old }
    ensures { s.new ≡ patch s.old at (name_octets ids.now) }
{
    for (i, id) in ids.iter().enumerate() {
        put_be4(s, at + 4 * i, *id);
    }
}

// How the first name stands to the second: the first sub-ids that differ decide, and else how many there are.
pub fn relate(a: &[u8], b: &[u8]) -> Ordering
    ensures { result ≡ relation (subids a.now) (subids b.now) }
{
    let n = a.len() / 4;
    let m = b.len() / 4;
    for i in 0..n.min(m) {
        let order = be4(a, 4 * i).cmp(&be4(b, 4 * i));
        if order.is_ne() {
            return order;
        }
    }
    n.cmp(&m)
}
