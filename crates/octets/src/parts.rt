// Parts of a slice: set to 0, copied in, tested for 0, compared.
ghost use Rattle.std.specs.Prelude.{◌≡◌, ◌+◌, ◌≤◌, length};
ghost use Rattle.octets.specs.Parts.{patch, zeros, zero_run, same};

// n octets from index at are set to 0.
pub fn clear(s: &mut [u8], at: usize, n: usize)
    requires { at + n ≤ length s.old }
    ensures { s.new ≡ patch s.old at (zeros n) }
{
    s[at..at + n].fill(0);
}

// All of src goes into s from index at on.
// No `copy_from_slice`: compiled, it calls memmove, which the archive asks of no host.
pub fn copy_in(s: &mut [u8], at: usize, src: &[u8])
    requires { at + length src.now ≤ length s.old }
    ensures { s.new ≡ patch s.old at src.now }
{
    for (i, x) in src.iter().enumerate() {
        s[at + i] = *x;
    }
}

// Whether n octets from index at are all 0. All of them are looked at, so that the loop has one way out and the compiler can widen it.
pub fn all_zero(s: &[u8], at: usize, n: usize) -> bool
    requires { at + n ≤ length s.now }
    ensures { result ≡ zero_run s.now at n }
{
    let mut bits: u8 = 0;
    for x in &s[at..at + n] {
        bits |= *x;
    }
    bits == 0
}

// Whether two slices hold the same octets.
pub fn same_octets(s: &[u8], t: &[u8]) -> bool
    ensures { result ≡ same s.now t.now }
{
    s == t
}
