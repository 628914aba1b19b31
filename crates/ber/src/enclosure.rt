// Where a reading may go.
ghost use Rattle.std.specs.Prelude.{◌≤◌, length};
ghost use Rattle.message.specs.Answer.{most_octets};

// The octets of a datagram up to an end: it is no slice, since offsets count from the start of the datagram, as in the definitions.
#[derive(Clone, Copy)]
pub struct Enclosure<'a> {
    pub octets: &'a [u8],
    pub end: usize,
    pub ghost within: { end ≤ length octets.now },
    pub ghost short: { end ≤ most_octets },
}
