// A response written as a datagram: the bindings are measured first, and when the whole is known to fit, each part is put in its place in the room.
#![tactic(auto)]

pub mod response;
pub mod writing;

ghost use Rattle.std.specs.Prelude.{◌≡◌, ◌+◌, ◌≤◌, ◌<◌, [], ◌∷◌, ◌++◌, map, length};
ghost use Rattle.octets.specs.Numbers.{be_octets};
ghost use Rattle.octets.specs.Parts.{patch};
ghost use Rattle.message.specs.Answer.{most_octets, bound_at};
ghost use Rattle.message.specs.Request.{with_bindings};
ghost use Rattle.sending.specs.Writing.{shortened, ber_octets, binding_ber, bindings_ber, response_front, datagram_front, datagram_octets, responses_from, Writable, Ready, Put, sent, sent_by, sent_as, Brief, to_datagram};

use ber::tags::{BER_INTEGER, BER_SEQUENCE, BER_STRING, RESPONSE_PDU};
use message::form::{MOST_BINDINGS, Refusal};
use message::refusals::Reason;
use message::request::{Binding, Head, NO_BINDING};
use message::sizes::MOST_OCTETS;
use octets::parts::copy_in;
use response::{read_answers, response_head};
use writing::{bound_before, header_before, number_before};

// The refusals of a call: of its room, and of a message or a datagram that is too long.
const SHORT: Refusal = Refusal {
    reason: Reason::RoomShort,
    at: 0,
};

const OVER: Refusal = Refusal {
    reason: Reason::TooLong,
    at: 0,
};

// The version of SNMPv2c, as a field.
const VERSION_FIELD: [u8; 3] = [BER_INTEGER, 1, 1];

// The most octets of a binding: three headers of 4 octets, 128 sub-ids of 5, a content of 255 and a sign octet.
const MOST_BOUND: usize = 908;

// The most octets before the bindings of a response: two headers of 4 octets, an id of 8, status and index of 6.
const RESPONSE_FRONT: usize = 28;

// The most octets before the community: two headers of 4 octets, and the version.
const DATAGRAM_FRONT: usize = 11;

// How many octets a binding has as one of BER; out is lent to write it.
fn bound_size(out: &mut [u8; MOST_BOUND], s: &[u8], b: &Binding) -> usize
    requires { Writable s.now b.now }
    ensures { result ≡ length (binding_ber (bound_at s.now b.now)) }
{
    MOST_BOUND - bound_before(out, MOST_BOUND, s, b)
}

// Puts a binding as one of BER, and gives the place after it; out is lent to write it.
fn put_bound(room: &mut [u8], to: usize, out: &mut [u8; MOST_BOUND], s: &[u8], b: &Binding) -> usize
    requires { Writable s.now b.now × (to + length (binding_ber (bound_at s.now b.now)) ≤ length room.old) }
    ensures { (result ≡ to + length (binding_ber (bound_at s.now b.now))) × (room.new ≡ patch room.old to (binding_ber (bound_at s.now b.now))) }
{
    let from = bound_before(out, MOST_BOUND, s, b);
    copy_in(room, to, &out[from..]);
    to + (MOST_BOUND - from)
}

// How many octets the bindings have.
fn bindings_size(s: &[u8], bindings: &[Binding]) -> usize
    requires { Ready s.now bindings.now }
    ensures { result ≡ length (bindings_ber (map (bound_at s.now) bindings.now)) × (result < 16384) }
{
    let mut out = [0u8; MOST_BOUND];
    let mut total: usize = 0;
    for b in bindings {
        total += bound_size(&mut out, s, b);
    }
    total
}

// Puts the bindings from a place on.
fn put_bindings(room: &mut [u8], from: usize, s: &[u8], bindings: &[Binding])
    requires { Ready s.now bindings.now × (from + length (bindings_ber (map (bound_at s.now) bindings.now)) ≤ length room.old) }
    ensures { room.new ≡ patch room.old from (bindings_ber (map (bound_at s.now) bindings.now)) }
{
    let mut out = [0u8; MOST_BOUND];
    let mut to = from;
    for b in bindings {
        to = put_bound(room, to, &mut out, s, b);
    }
}

// Puts the field of a number before place p, and gives the place where it starts.
fn number_field(out: &mut [u8], p: usize, xs: &[u8]) -> usize
    requires { (length xs.now + 4 ≤ p) × (p ≤ length out.old) × (length xs.now < 65536) }
    ensures { Put out.old out.new result p (ber_octets 0x02 (shortened xs.now)) × (p ≤ result + (length xs.now + 4)) }
{
    let q = number_before(out, p, xs);
    header_before(out, q, BER_INTEGER, p - q)
}

// The field of a status or an index.
fn octet_field(out: &mut [u8], p: usize, n: u8) -> usize
    requires { (6 ≤ p) × (p ≤ length out.old) }
    ensures { Put out.old out.new result p (ber_octets 0x02 (shortened (0 ∷ n ∷ []))) × (p ≤ result + 6) }
{
    number_field(out, p, &[0, n])
}

// The field of a request id.
fn id_field(out: &mut [u8], p: usize, id: u32) -> usize
    requires { (8 ≤ p) × (p ≤ length out.old) }
    ensures { Put out.old out.new result p (ber_octets 0x02 (shortened (be_octets 4 id))) × (p ≤ result + 8) }
{
    number_field(out, p, &id.to_be_bytes())
}

// The field of version 1.
fn version_field(out: &mut [u8], p: usize) -> usize
    requires { (3 ≤ p) × (p ≤ length out.old) }
    ensures { Put out.old out.new result p (ber_octets 0x02 (1 ∷ [])) × (p ≤ result + 3) }
{
    copy_in(out, p - 3, &VERSION_FIELD);
    p - 3
}

// Puts what stands before the bindings of a response before place p, and gives the place where it starts.
fn response_front(out: &mut [u8], p: usize, size: usize, head: Head) -> usize
    requires { (28 ≤ p) × (p ≤ length out.old) × (p + size < 65536) }
    ensures { Put out.old out.new result p (response_front size head.id head.status head.index) × (p ≤ result + 28) }
{
    let l = header_before(out, p, BER_SEQUENCE, size);
    let x = octet_field(out, l, head.index);
    let t = octet_field(out, x, head.status);
    let i = id_field(out, t, head.id);
    header_before(out, i, RESPONSE_PDU, p - i + size)
}

// Puts what stands before the community before place p, and gives the place where it starts: rest is the size of the response.
fn datagram_front(out: &mut [u8], p: usize, community: usize, rest: usize) -> usize
    requires { (11 ≤ p) × (p ≤ length out.old) × (p + (community + rest) < 65536) }
    ensures { Put out.old out.new result p (datagram_front community rest) × (p ≤ result + 11) }
{
    let c = header_before(out, p, BER_STRING, community);
    let v = version_field(out, c);
    header_before(out, v, BER_SEQUENCE, p - v + (community + rest))
}

// Puts a datagram: what stands before the community, the community, what stands before the bindings, the bindings.
fn put_datagram(
    room: &mut [u8],
    front: &[u8],
    community: &[u8],
    response: &[u8],
    s: &[u8],
    bindings: &[Binding],
)
    requires { Ready s.now bindings.now × (length front.now + (length community.now + (length response.now + length (bindings_ber (map (bound_at s.now) bindings.now)))) ≤ length room.old) }
    ensures { room.new ≡ patch room.old 0 (front.now ++ (community.now ++ (response.now ++ bindings_ber (map (bound_at s.now) bindings.now)))) }
{
    let c = front.len();
    let r = c + community.len();
    copy_in(room, 0, front);
    copy_in(room, c, community);
    copy_in(room, r, response);
    put_bindings(room, r + response.len(), s, bindings);
}

// Writes a response that was read.
fn send(
    room: &mut [u8],
    community: &[u8],
    s: &[u8],
    head: Head,
    bindings: &[Binding],
) -> Result<usize, Refusal>
    requires { Ready s.now bindings.now × (most_octets ≤ length room.old) }
    ensures { Brief result × (sent_as result room.new ≡ sent room.old (datagram_octets community.now head.id head.status head.index (map (bound_at s.now) bindings.now))) }
{
    if MOST_OCTETS < community.len() {
        return Err(OVER);
    }
    let size = bindings_size(s, bindings);
    let mut response = [0u8; RESPONSE_FRONT];
    let r = response_front(&mut response, RESPONSE_FRONT, size, head);
    let rest = RESPONSE_FRONT - r + size;
    let mut front = [0u8; DATAGRAM_FRONT];
    let f = datagram_front(&mut front, DATAGRAM_FRONT, community.len(), rest);
    let n = DATAGRAM_FRONT - f + (community.len() + rest);
    if MOST_OCTETS < n {
        return Err(OVER);
    }
    put_datagram(room, &front[f..], community, &response[r..], s, bindings);
    Ok(n)
}

// Reads the bindings of a response whose head was read, and sends it.
fn send_bindings(room: &mut [u8], community: &[u8], s: &[u8], head: Head) -> Result<usize, Refusal>
    requires { (length s.now ≤ most_octets) × (most_octets ≤ length room.old) }
    ensures { Brief result × (sent_as result room.new ≡ sent_by room.old community.now s.now (with_bindings 2 head.id head.status head.index (responses_from s.now 16 16))) }
{
    let mut bindings = [NO_BINDING; MOST_BINDINGS];
    let count = read_answers(s, &mut bindings)?;
    send(room, community, s, head, &bindings[..count])
}

// A response to a datagram.
pub fn to_datagram(message: &[u8], community: &[u8], room: &mut [u8]) -> Result<usize, Refusal>
    ensures { Brief result × (sent_as result room.new ≡ to_datagram room.old community.now message.now) }
{
    if room.len() < MOST_OCTETS {
        return Err(SHORT);
    }
    if MOST_OCTETS < message.len() {
        return Err(OVER);
    }
    let head = response_head(message)?;
    send_bindings(room, community, message, head)
}
