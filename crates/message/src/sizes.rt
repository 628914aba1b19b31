// How many octets an answer has, and the most that it may have.
ghost use Rattle.std.specs.Prelude.{◌≡◌, ◌+◌, ◌<◌, leb};
ghost use Rattle.message.specs.Answer.{most_octets};

// The most octets that a message may have.
pub const MOST_OCTETS: usize = 1472;

// Whether an answer of so many octets may be sent; a longer one becomes tooBig.
pub fn fits(octets: usize) -> bool
    ensures { result ≡ leb octets most_octets }
{
    octets <= MOST_OCTETS
}

// How many octets a binding has, from the lengths of its name and of its content.
pub fn binding_size(size: usize, len: usize) -> usize
    requires { size + len < 65536 }
    ensures { result ≡ 9 + size + len }
{
    9 + size + len
}
