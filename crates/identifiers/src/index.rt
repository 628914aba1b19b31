// Indexes and keys: the sub-ids that follow an object's name are the digits of one number, the key.
ghost use Rattle.std.specs.Prelude.{◌≡◌, ◌+◌, ◌*◌, ◌≤◌, ◌<◌, length, get_or, false};
ghost use Rattle.std.specs.Range.{range_inclusive_start, range_inclusive_end, range_inclusive_exhausted};
ghost use Rattle.octets.specs.Parts.{patch};
ghost use Rattle.names.specs.SubIds.{subids, name_octets};
ghost use Rattle.names.specs.Index.{bases, ranges, index, limit, in_order, key_in, least, first_above, up_from, answered};

use names::Shape;
use names::model::Model;
use octets::numbers::{be4, put_be4};
use std::ops::RangeInclusive;

// How many sub-ids an index has.
pub fn index_len(shape: Shape) -> usize
    ensures { result ≡ length (bases shape) }
{
    match shape {
        Shape::Scalar | Shape::Port | Shape::Vlan => 1,
        Shape::PortPriority | Shape::Pair => 2,
        Shape::Static => 7,
    }
}

// The base of the sub-id at place i.
fn base_at(shape: Shape, i: usize) -> u64
    requires { i < length (bases shape) }
    ensures { result ≡ get_or (bases shape) i 0 }
{
    match shape {
        Shape::Scalar | Shape::Port | Shape::Vlan => 4294967296,
        Shape::PortPriority => { if i == 0 { 4294967296 } else { 8 } }
        Shape::Static | Shape::Pair => 256,
    }
}

// How many keys a shape has.
fn limit_of(shape: Shape) -> u64
    ensures { result ≡ limit shape }
{
    match shape {
        Shape::Scalar | Shape::Port | Shape::Vlan => 4294967296,
        Shape::PortPriority => 34359738368,
        Shape::Static => 72057594037927936,
        Shape::Pair => 65536,
    }
}

// What the sub-id at place i may be on a model.
fn range_at(m: Model, shape: Shape, i: usize) -> RangeInclusive<u32>
    requires { i < length (bases shape) }
    ensures low { range_inclusive_start result ≡ (get_or (ranges m shape) i (0, 0)).0 }
    ensures high { range_inclusive_end result ≡ (get_or (ranges m shape) i (0, 0)).1 }
    ensures whole { range_inclusive_exhausted result ≡ false }
{
    match shape {
        Shape::Scalar => 0..=0,
        Shape::Port | Shape::Pair => 1..=m.ports,
        Shape::PortPriority => { if i == 0 { 1..=m.ports } else { 0..=7 } }
        Shape::Vlan => 1..=4094,
        Shape::Static => { if i < 6 { 0..=255 } else { 0..=m.ports } }
    }
}

// Whether the first port of a pair is below the second.
fn in_order(shape: Shape, key: u64) -> bool
    ensures { result ≡ in_order shape (index shape key) }
{
    match shape {
        Shape::Pair => key / 256 < key % 256,
        _ => true,
    }
}

// The key that the rest of a name stands for on a model.
pub fn key_of(m: Model, shape: Shape, rest: &[u8]) -> Option<u64>
    requires { m.ports ≤ 64 }
    ensures { result ≡ answered (key_in m shape (subids rest.now)) }
{
    let n = index_len(shape);
    if rest.len() / 4 != n {
        return None;
    }
    let mut key: u64 = 0;
    for i in 0..n {
        let x = be4(rest, 4 * i);
        if !range_at(m, shape, i).contains(&x) {
            return None;
        }
        key = key * base_at(shape, i) + x as u64;
    }
    if in_order(shape, key) {
        Some(key)
    } else {
        None
    }
}

// The least key whose index is above the rest of a name, or, where there is none, the number of keys.
pub fn least_above(shape: Shape, rest: &[u8]) -> u64
    ensures { result ≡ least (bases shape) (subids rest.now) }
{
    let n = index_len(shape);
    let mut key: u64 = 0;
    // so many keys begin with the first i sub-ids
    let mut w = limit_of(shape);
    for i in 0..n {
        if rest.len() - 4 * i < 4 {
            return key;
        }
        let x = u64::from(be4(rest, 4 * i));
        let base = base_at(shape, i);
        if base <= x {
            return key + w;
        }
        w /= base;
        key += x * w;
    }
    key + 1
}

// The first of n keys from a on whose index is above the rest of a name.
pub fn next_in_row(shape: Shape, rest: &[u8], a: u64, n: u64) -> Option<u64>
    requires { a + n ≤ limit shape }
    ensures { result ≡ answered (first_above (subids rest.now) shape (up_from a n)) }
{
    let k = least_above(shape, rest).max(a);
    if k < a + n { Some(k) } else { None }
}

// Puts the octets of the key's index from index at on.
pub fn put_index(s: &mut [u8], at: usize, shape: Shape, key: u64)
    requires { (at + 4 * length (bases shape) ≤ length s.old) × (key < limit shape) }
    ensures { s.new ≡ patch s.old at (name_octets (index shape key)) }
{
    let n = index_len(shape);
    let mut rest = key;
    // so many keys begin with the first i sub-ids
    let mut w = limit_of(shape);
    for i in 0..n {
        w /= base_at(shape, i);
        put_be4(s, at + 4 * i, (rest / w) as u32);
        rest %= w;
    }
}
