// BER: fields, numbers, names and contents at their places in a datagram.
#![tactic(auto)]

pub mod enclosure;
pub mod tags;

ghost use Rattle.std.specs.Prelude.{◌≡◌, ◌+◌, ◌-◌, ◌*◌, ◌≤◌, ◌^◌, true, length};
ghost use Rattle.octets.specs.Numbers.{be_at};
ghost use Rattle.octets.specs.Parts.{part, patch};
ghost use Rattle.names.specs.SubIds.{name_octets};
ghost use Rattle.message.specs.Answer.{most_octets};
ghost use Rattle.ber.specs.Ber.{length_octets, length_said, at_most, field_at, whole_field, part_at, fewest, sign, five, unsigned, is_number, number_at, name_whole, made, first_of, sub_ids, sub_id_count, limit_of, all_below, name_fits, content_tag, number_judged, content_judged};

use enclosure::Enclosure;
use message::form::Field;
use message::refusals::Reason;
use message::tags::{
    COUNTER, END_OF_VIEW, INTEGER, NO_SUCH_INSTANCE, NO_SUCH_OBJECT, NULL, STRING, UNSIGNED,
};
use octets::numbers::put;
use octets::parts::copy_in;
use tags::{
    BER_COUNTER, BER_END_OF_VIEW, BER_INTEGER, BER_NO_SUCH_INSTANCE, BER_NO_SUCH_OBJECT, BER_NULL,
    BER_STRING, BER_UNSIGNED,
};

// Where a field's contents stand.
#[derive(Clone, Copy, Debug, PartialEq, Eq)]
pub struct Part {
    pub start: usize,
    pub len: usize,
}

// The octets at a place.
pub fn contents(s: &[u8], at: usize, len: usize) -> &[u8]
    requires { at + len ≤ length s.now }
    ensures { result.now ≡ part s.now at len }
{
    &s[at..at + len]
}

// How many octets the length at an offset has; none where it is cut by the enclosure's end, or of no definite form.
#[tactic(auto, unfolding(crate::specs::Ber::length_octets))]
pub fn length_octets(s: &[u8], at: usize, end: usize) -> Option<usize>
    requires { end ≤ length s.now }
    ensures { result ≡ length_octets s.now at end }
{
    if end <= at {
        return None;
    }
    match s[at] {
        0..=127 => Some(1),
        first @ 129..=254 => {
            let n = usize::from(first) - 127;
            if end - at < n { None } else { Some(n) }
        }
        _ => None,
    }
}

// The number of octets, where it is at most `most`.
pub fn number_to(octets: &[u8], most: usize) -> Option<usize>
    requires { most ≤ most_octets }
    ensures { result ≡ at_most most (be_at octets.now 0 (length octets.now)) }
{
    let mut acc: usize = 0;
    for x in octets {
        acc = acc * 256 + usize::from(*x);
        if most < acc {
            return None;
        }
    }
    Some(acc)
}

// The length that octets say, where it is at most `most`.
pub fn length_said(octets: &[u8], most: usize) -> Option<usize>
    requires { (1 ≤ length octets.now) × (most ≤ most_octets) }
    ensures { result ≡ at_most most (length_said octets.now 0 (length octets.now)) }
{
    if octets.len() == 1 {
        return number_to(octets, most);
    }
    number_to(&octets[1..], most)
}

// The field at an offset of an enclosure; none where it is cut.
pub fn field_at(e: Enclosure, at: usize) -> Option<Field>
    ensures { result ≡ field_at e.entry.octets.now at e.entry.end }
{
    if e.end <= at {
        return None;
    }
    let n = length_octets(e.octets, at + 1, e.end)?;
    let start = at + 1 + n;
    let len = length_said(contents(e.octets, at + 1, n), e.end - start)?;
    Some(Field {
        tag: e.octets[at],
        start,
        len,
    })
}

// The field at an offset, or the refusal of a cut one.
pub fn whole_field(e: Enclosure, at: usize) -> Result<Field, Reason>
    ensures { result ≡ whole_field e.entry.octets.now at e.entry.end }
{
    field_at(e, at).ok_or(Reason::DatagramBroken)
}

// The field at an offset, if it has the tag.
#[tactic(auto, unfolding(crate::specs::Ber::part_at))]
pub fn part_at(tag: u8, e: Enclosure, at: usize) -> Result<Part, Reason>
    ensures { result ≡ part_at tag e.entry.octets.now at e.entry.end }
{
    let field = whole_field(e, at)?;
    if field.tag != tag {
        return Err(Reason::DatagramBroken);
    }
    Ok(Part {
        start: field.start,
        len: field.len,
    })
}

// Whether contents are a number in the fewest octets.
pub fn in_fewest(contents: &[u8]) -> bool
    ensures { result ≡ fewest contents.now }
{
    match contents {
        [] => false,
        [_] => true,
        [x, y, ..] => match *x {
            0 => 128 <= *y,
            255 => *y < 128,
            _ => true,
        },
    }
}

// Whether contents are the number n, which is below 128.
#[tactic(auto, unfolding(crate::specs::Ber::is_number))]
pub fn is_number(n: u8, contents: &[u8]) -> bool
    ensures { result ≡ is_number n contents.now }
{
    contents.len() == 1 && contents[0] == n
}

// The octet that repeats a number's sign.
fn sign_of(contents: &[u8]) -> u8
    ensures { result ≡ sign contents.now }
{
    match contents {
        [x, ..] if 128 <= *x => 255,
        _ => 0,
    }
}

// A number of up to five octets in five.
pub fn five_of(contents: &[u8]) -> [u8; 5]
    requires { length contents.now ≤ 5 }
    ensures { result ≡ five contents.now }
{
    let mut out = [sign_of(contents); 5];
    copy_in(&mut out, 5 - contents.len(), contents);
    out
}

// Whether a number is one from 0 on that so many octets hold without a sign.
pub fn is_unsigned(octets: usize, contents: &[u8]) -> bool
    requires { octets ≤ 4 }
    ensures { result ≡ unsigned octets contents.now }
{
    contents.len() <= octets + 1 && five_of(contents)[4 - octets] == 0
}

// The number field at an offset.
#[tactic(auto, unfolding(crate::specs::Ber::number_at))]
pub fn number_at(e: Enclosure, at: usize) -> Result<Part, Reason>
    ensures { result ≡ number_at e.entry.octets.now at e.entry.end }
{
    let p = part_at(BER_INTEGER, e, at)?;
    if in_fewest(contents(e.octets, p.start, p.len)) {
        return Ok(p);
    }
    Err(Reason::DatagramBroken)
}

// Whether contents are a name: every number in them ends, and has the fewest octets.
pub fn is_name(contents: &[u8]) -> bool
    ensures { result ≡ name_whole contents.now }
{
    let mut fresh = true;
    for x in contents {
        if fresh & (*x == 128) {
            return false;
        }
        fresh = *x < 128;
    }
    (0 < contents.len()) & fresh
}

// The least number that makes a sub-id of 2^32 or more.
fn limit_of(first: bool) -> u64
    ensures { result ≡ limit_of first }
{
    if first { 0x100000050 } else { 0x100000000 }
}

// How many sub-ids a whole name has, where all of them are below 2^32.
pub fn sub_ids(contents: &[u8]) -> Option<usize>
    requires { (length contents.now ≤ most_octets) × (name_whole contents.now ≡ true) }
    ensures { result ≡ sub_id_count contents.now }
{
    let mut first = true;
    let mut acc: u64 = 0;
    let mut count: usize = 0;
    for x in contents {
        acc = acc * 128 + u64::from(*x % 128);
        if limit_of(first) <= acc {
            return None;
        }
        if *x < 128 {
            count += 1 + usize::from(first);
            first = false;
            acc = 0;
        }
    }
    Some(count)
}

// Whether a whole name has a counterpart.
#[tactic(auto, unfolding(crate::specs::Ber::name_fits))]
pub fn name_fits(contents: &[u8]) -> bool
    requires { (length contents.now ≤ most_octets) × (name_whole contents.now ≡ true) }
    ensures { result ≡ name_fits contents.now }
{
    match sub_ids(contents) {
        Some(n) => n <= 128,
        None => false,
    }
}

fn first_of(n: u64) -> u64
    ensures { result ≡ first_of n }
{
    if n < 80 { n / 40 } else { 2 }
}

// Puts the sub-ids that a number makes, and gives the place after them.
fn put_number(room: &mut [u8], at: usize, first: bool, n: u64) -> usize
    requires { at + 4 * length (made first n) ≤ length room.old }
    ensures { (result ≡ at + 4 * length (made first n)) × (room.new ≡ patch room.old at (name_octets (made first n))) }
{
    if first {
        let f = first_of(n);
        put(room, at, 4, f);
        put(room, at + 4, 4, n - 40 * f);
        return at + 8;
    }
    put(room, at, 4, n);
    at + 4
}

// Puts a name of BER in our form at the start of a room.
pub fn put_name(room: &mut [u8], contents: &[u8])
    requires { (name_whole contents.now ≡ true) × (all_below (2 ^ 32) (sub_ids contents.now) ≡ true) × (4 * length (sub_ids contents.now) ≤ length room.old) }
    ensures { room.new ≡ patch room.old 0 (name_octets (sub_ids contents.now)) }
{
    let mut first = true;
    let mut acc: u64 = 0;
    let mut w: usize = 0;
    for x in contents {
        acc = acc * 128 + u64::from(*x % 128);
        if *x < 128 {
            w = put_number(room, w, first, acc);
            first = false;
            acc = 0;
        }
    }
}

// Our tag of a content's tag, if there is one.
#[tactic(auto, unfolding(crate::specs::Ber::content_tag))]
pub fn content_tag(tag: u8) -> Option<u8>
    ensures { result ≡ content_tag tag }
{
    match tag {
        BER_NULL => Some(NULL),
        BER_INTEGER => Some(INTEGER),
        BER_STRING => Some(STRING),
        BER_UNSIGNED => Some(UNSIGNED),
        BER_COUNTER => Some(COUNTER),
        BER_NO_SUCH_OBJECT => Some(NO_SUCH_OBJECT),
        BER_NO_SUCH_INSTANCE => Some(NO_SUCH_INSTANCE),
        BER_END_OF_VIEW => Some(END_OF_VIEW),
        _ => None,
    }
}

// A number is in the fewest octets, and has a counterpart.
fn number_judged(short: bool, fits: bool) -> Result<(), Reason>
    ensures { result ≡ number_judged short fits }
{
    match (short, fits) {
        (true, true) => Ok(()),
        (true, false) => Err(Reason::NoCounterpart),
        (false, _) => Err(Reason::DatagramBroken),
    }
}

// Whether a content by our tag is refused.
#[tactic(auto, unfolding(crate::specs::Ber::content_judged, crate::specs::Ber::integer32, crate::specs::Ber::unsigned32))]
pub fn content_judged(tag: u8, contents: &[u8]) -> Result<(), Reason>
    ensures { result ≡ content_judged tag contents.now }
{
    match tag {
        STRING if contents.len() <= 255 => Ok(()),
        STRING => Err(Reason::NoCounterpart),
        INTEGER => number_judged(in_fewest(contents), contents.len() <= 4),
        UNSIGNED | COUNTER => number_judged(in_fewest(contents), is_unsigned(4, contents)),
        _ if contents.is_empty() => Ok(()),
        _ => Err(Reason::DatagramBroken),
    }
}
