// Sets of up to 64 ports as numbers: port 1 is the highest bit.
ghost use Rattle.std.specs.Prelude.{◌≡◌, ◌+◌, ◌/◌, ◌≤◌, length};
ghost use Rattle.octets.specs.Parts.{part, patch};
ghost use Rattle.octets.specs.Ports.{member, ports_to, only_to, disjoint, members, first_differing, set_of, port_octets};

use super::numbers::put;
use super::parts::copy_in;

pub fn is_member(set: u64, port: u32) -> bool
    ensures { result ≡ member 64 set port }
{
    match port {
        1..=64 => (set >> (64 - port)) % 2 == 1,
        _ => false,
    }
}

// The set of all ports 1 to n.
pub fn ports_to(n: u32) -> u64
    requires { n ≤ 64 }
    ensures { result ≡ ports_to 64 n }
{
    if n == 64 {
        return u64::MAX;
    }
    u64::MAX - (u64::MAX >> n)
}

// Whether no port above n is in the set.
pub fn only_to(n: u32, set: u64) -> bool
    requires { (1 ≤ n) × (n ≤ 64) }
    ensures { result ≡ only_to 64 n set }
{
    set % (1u64 << (64 - n)) == 0
}

// Whether no port is in both sets.
pub fn are_disjoint(a: u64, b: u64) -> bool
    ensures { result ≡ disjoint a b }
{
    a & b == 0
}

pub fn count_members(set: u64) -> u32
    ensures { result ≡ members 64 set }
{
    u64::count_ones(set)
}

// The first port that is in one of the two sets only, or 0.
pub fn first_differing(a: u64, b: u64) -> u32
    ensures { result ≡ first_differing 64 a b }
{
    // 0 for none, as in the definition that the comparison of walks cites.
    if a == b {
        return 0;
    }
    u64::leading_zeros(a ^ b) + 1
}

// The set that n octets from index at write: missing octets are zero.
pub fn set_at(s: &[u8], at: usize, n: usize) -> u64
    requires { (at + n ≤ length s.now) × (n ≤ 8) }
    ensures { result ≡ set_of (part s.now at n) }
{
    let mut octets = [0; 8];
    copy_in(&mut octets, 0, &s[at..at + n]);
    u64::from_be_bytes(octets)
}

// Puts the octets of the set of a bridge with n ports from index at on.
pub fn put_ports(s: &mut [u8], at: usize, n: usize, set: u64)
    requires { (at + (n + 7) / 8 ≤ length s.old) × (n ≤ 64) × (1 ≤ n) }
    ensures { s.new ≡ patch s.old at (port_octets n set) }
{
    let w = (n + 7) / 8;
    put(s, at, w, set >> (64 - 8 * w));
}
