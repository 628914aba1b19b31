// Numbers most significant octet first, of any width up to 8 octets.
ghost use Rattle.std.specs.Prelude.{◌≡◌, ◌+◌, ◌≤◌, ◌<◌, ◌^◌, length};
ghost use Rattle.octets.specs.Numbers.{be_at, be_octets};
ghost use Rattle.octets.specs.Parts.{patch};

// The number of w octets from index at.
pub fn be(s: &[u8], at: usize, w: usize) -> u64
    requires { (at + w ≤ length s.now) × (w ≤ 8) }
    ensures { (result ≡ be_at s.now at w) × (result < 256 ^ w) }
{
    let mut acc: u64 = 0;
    for x in &s[at..at + w] {
        acc = acc * 256 + u64::from(*x);
    }
    acc
}

// Puts the last w octets of v from index at on.
pub fn put(s: &mut [u8], at: usize, w: usize, v: u64)
    requires { at + w ≤ length s.old }
    ensures { s.new ≡ patch s.old at (be_octets w v) }
{
    let mut left = v;
    for i in (0..w).rev() {
        s[at + i] = (left % 256) as u8;
        left /= 256;
    }
}

// Each width has its own result type, which no const parameter gives: three short calls of be.
pub fn be2(s: &[u8], at: usize) -> u16
    requires { at + 2 ≤ length s.now }
    ensures { result ≡ be_at s.now at 2 }
{
    be(s, at, 2) as u16
}

pub fn be4(s: &[u8], at: usize) -> u32
    requires { at + 4 ≤ length s.now }
    ensures { result ≡ be_at s.now at 4 }
{
    be(s, at, 4) as u32
}

pub fn be8(s: &[u8], at: usize) -> u64
    requires { at + 8 ≤ length s.now }
    ensures { result ≡ be_at s.now at 8 }
{
    be(s, at, 8)
}

pub fn put_be4(s: &mut [u8], at: usize, v: u32)
    requires { at + 4 ≤ length s.old }
    ensures { s.new ≡ patch s.old at (be_octets 4 v) }
{
    put(s, at, 4, u64::from(v));
}
