// Writing BER in the shortest form, from the back: contents first, and then their header, whose length is known by then.
ghost use Rattle.std.specs.Prelude.{◌≡◌, ◌+◌, ◌*◌, ◌/◌, ◌≤◌, ◌<◌, ◌^◌, true, ◌∷◌, length};
ghost use Rattle.message.specs.Form.{content_length};
ghost use Rattle.message.specs.Answer.{bound_at};
ghost use Rattle.sending.specs.Writing.{header_form, going_on, base128, shortened, name_ber, name_written, ber_tag, content_ber, binding_ber, ber_octets, Writable, Put};

use ber::in_fewest;
use ber::tags::{
    BER_COUNTER, BER_END_OF_VIEW, BER_INTEGER, BER_NAME, BER_NO_SUCH_INSTANCE, BER_NO_SUCH_OBJECT,
    BER_NULL, BER_SEQUENCE, BER_STRING, BER_UNSIGNED,
};
use message::request::Binding;
use message::tags::{COUNTER, INTEGER, NO_SUCH_INSTANCE, NO_SUCH_OBJECT, NULL, STRING, UNSIGNED};
use octets::numbers::be4;
use octets::parts::copy_in;

// Puts a header before place p, and gives the place where it starts.
pub fn header_before(out: &mut [u8], p: usize, tag: u8, len: usize) -> usize
    requires { (4 ≤ p) × (p ≤ length out.old) × (len < 65536) }
    ensures { Put out.old out.new result p (header_form tag len) }
{
    if len < 128 {
        copy_in(out, p - 2, &[tag, len as u8]);
        return p - 2;
    }
    if len < 256 {
        copy_in(out, p - 3, &[tag, 0x81, len as u8]);
        return p - 3;
    }
    copy_in(
        out,
        p - 4,
        &[tag, 0x82, (len / 256) as u8, (len % 256) as u8],
    );
    p - 4
}

// Puts the octets of a number to the base 128 before its last, before place p, and gives the place where they start.
fn going_before(out: &mut [u8], p: usize, n: u64) -> usize
    requires { (4 ≤ p) × (p ≤ length out.old) × (n < 2 ^ 28) }
    ensures { Put out.old out.new result p (going_on 4 n) }
{
    let mut q = p;
    let mut m = n;
    while 0 < m {
        q -= 1;
        out[q] = (128 + m % 128) as u8;
        m /= 128;
    }
    q
}

// Puts a number to the base 128 before place p, and gives the place where it starts.
pub fn base128_before(out: &mut [u8], p: usize, n: u64) -> usize
    requires { (5 ≤ p) × (p ≤ length out.old) × (n < 2 ^ 35) }
    ensures { Put out.old out.new result p (base128 n) }
{
    out[p - 1] = (n % 128) as u8;
    going_before(out, p - 1, n / 128)
}

// The tag of a content by our tag.
#[tactic(auto, unfolding(crate::specs::Writing::ber_tag))]
pub fn ber_tag(tag: u8) -> u8
    ensures { result ≡ ber_tag tag }
{
    match tag {
        NULL => BER_NULL,
        INTEGER => BER_INTEGER,
        STRING => BER_STRING,
        UNSIGNED => BER_UNSIGNED,
        COUNTER => BER_COUNTER,
        NO_SUCH_OBJECT => BER_NO_SUCH_OBJECT,
        NO_SUCH_INSTANCE => BER_NO_SUCH_INSTANCE,
        _ => BER_END_OF_VIEW,
    }
}

// A number without the octets in front that only repeat its sign.
fn shortest(xs: &[u8]) -> &[u8]
    ensures { result.now ≡ shortened xs.now }
{
    let mut rest = xs;
    while let Some((_, tail)) = rest.split_first() {
        if in_fewest(rest) {
            return rest;
        }
        rest = tail;
    }
    rest
}

// Puts a number in the fewest octets before place p, and gives the place where it starts.
pub fn number_before(out: &mut [u8], p: usize, xs: &[u8]) -> usize
    requires { (length xs.now ≤ p) × (p ≤ length out.old) }
    ensures { Put out.old out.new result p (shortened xs.now) }
{
    let fewest = shortest(xs);
    copy_in(out, p - fewest.len(), fewest);
    p - fewest.len()
}

// Puts a name of BER before place p, and gives the place where it starts.
pub fn name_before(out: &mut [u8], p: usize, name: &[u8]) -> usize
    requires { (8 ≤ length name.now) × (5 * (length name.now / 4) ≤ p) × (p ≤ length out.old) × (name_written name.now 0 ≡ true) }
    ensures { Put out.old out.new result p (name_ber name.now) }
{
    let mut q = p;
    for i in (2..name.len() / 4).rev() {
        q = base128_before(out, q, u64::from(be4(name, 4 * i)));
    }
    base128_before(
        out,
        q,
        u64::from(be4(name, 0)) * 40 + u64::from(be4(name, 4)),
    )
}

// The four octets of a number without a sign, with one in front.
fn signed_five(xs: &[u8]) -> [u8; 5]
    requires { length xs.now ≡ 4 }
    ensures { result ≡ 0 ∷ xs.now }
{
    let mut five = [0u8; 5];
    copy_in(&mut five, 1, xs);
    five
}

// Puts a content of our form as one of BER before place p, and gives the place where it starts.
pub fn content_before(out: &mut [u8], p: usize, tag: u8, xs: &[u8]) -> usize
    requires { (content_length tag (length xs.now) ≡ true) × (length xs.now + 1 ≤ p) × (p ≤ length out.old) }
    ensures { Put out.old out.new result p (content_ber tag xs.now) }
{
    if tag == INTEGER {
        return number_before(out, p, xs);
    }
    if (tag == UNSIGNED) | (tag == COUNTER) {
        return number_before(out, p, &signed_five(xs));
    }
    copy_in(out, p - xs.len(), xs);
    p - xs.len()
}

// Puts the field of a content before place p, and gives the place where it starts.
fn content_field(out: &mut [u8], p: usize, tag: u8, xs: &[u8]) -> usize
    requires { (content_length tag (length xs.now) ≡ true) × (length xs.now + 5 ≤ p) × (p ≤ length out.old) × (p < 65536) }
    ensures { Put out.old out.new result p (ber_octets (ber_tag tag) (content_ber tag xs.now)) × (p ≤ result + (length xs.now + 1 + 4)) }
{
    let q = content_before(out, p, tag, xs);
    header_before(out, q, ber_tag(tag), p - q)
}

// Puts the field of a name before place p, and gives the place where it starts.
fn name_field(out: &mut [u8], p: usize, name: &[u8]) -> usize
    requires { (8 ≤ length name.now) × (5 * (length name.now / 4) + 4 ≤ p) × (p ≤ length out.old) × (name_written name.now 0 ≡ true) × (p < 65536) }
    ensures { Put out.old out.new result p (ber_octets 0x06 (name_ber name.now)) × (p ≤ result + (5 * (length name.now / 4) + 4)) }
{
    let q = name_before(out, p, name);
    header_before(out, q, BER_NAME, p - q)
}

// Puts a binding of our form as one of BER before place p, and gives the place where it starts.
pub fn bound_before(out: &mut [u8], p: usize, s: &[u8], b: &Binding) -> usize
    requires { Writable s.now b.now × (5 * (b.now.size / 4) + b.now.len + 13 ≤ p) × (p ≤ length out.old) × (p < 65536) }
    ensures { Put out.old out.new result p (binding_ber (bound_at s.now b.now)) }
{
    let c = content_field(out, p, b.tag, &s[b.content..b.content + b.len]);
    let n = name_field(out, c, &s[b.name..b.name + b.size]);
    header_before(out, n, BER_SEQUENCE, p - n)
}
