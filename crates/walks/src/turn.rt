// One turn of the comparison: a binding of each walk.
ghost use Rattle.std.specs.Prelude.{◌≡◌, ◌+◌, ◌≤◌, length};
ghost use Rattle.octets.specs.Parts.{patch};
ghost use Rattle.walks.specs.Walk.{item};
ghost use Rattle.walks.specs.Merge.{twenty};
ghost use Rattle.walks.specs.Turn.{differing, turn_of, turn_at, found_octets};

use super::contrast::{Contrast, NO_PORTS, contrasts};
use identifiers::order::relate;
use message::kinds::SET;
use message::request::{Bound, binding_at};
use octets::numbers::put;
use octets::parts::copy_in;
use std::cmp::Ordering;

// The kinds of an entry, as its first octet tells them.
const REFERENCE_ONLY: u8 = 1;

const DEVICE_ONLY: u8 = 2;

const DIFFERING: u8 = 3;

// The octets of an entry, and where the two offsets stand in it.
pub const ENTRY: usize = 20;

const REFERENCE_AT: usize = 4;

const DEVICE_AT: usize = 12;

// An instance that is listed, with the offset of its binding in each walk that has it.
#[derive(Clone, Copy, Debug, PartialEq, Eq)]
pub enum Found {
    ReferenceOnly(usize),
    DeviceOnly(usize),
    Differing {
        contrast: Contrast,
        reference: usize,
        device: usize,
    },
}

// What is found at a binding of each walk, and where the reference's and the device's walk go on.
#[derive(Clone, Copy, Debug, PartialEq, Eq)]
pub struct Turn {
    pub found: Option<Found>,
    pub next: usize,
    pub other: usize,
}

// What is found at bindings of one instance.
fn differing(c: Option<Contrast>, reference: usize, device: usize) -> Option<Found>
    ensures { result ≡ differing c reference device }
{
    c.map(|contrast| Found::Differing {
        contrast,
        reference,
        device,
    })
}

// The turn at binding a, which starts at i, and binding b, which starts at j.
fn turn_of(s: &[u8], i: usize, a: Bound, t: &[u8], j: usize, b: Bound) -> Turn
    requires { (a.binding.name + a.binding.size ≤ length s.now) × (a.binding.content + a.binding.len ≤ length s.now) × (b.binding.name + b.binding.size ≤ length t.now) × (b.binding.content + b.binding.len ≤ length t.now) }
    ensures { result ≡ turn_of (item s.now i a.binding) a.next (item t.now j b.binding) b.next }
{
    let x = a.binding;
    let y = b.binding;
    let n = x.name;
    let m = y.name;
    let p = n + x.size;
    let q = m + y.size;
    match relate(&s[n..p], &t[m..q]) {
        Ordering::Less => Turn {
            found: Some(Found::ReferenceOnly(i)),
            next: a.next,
            other: j,
        },
        Ordering::Equal => {
            let k = x.content;
            let l = y.content;
            let u = k + x.len;
            let v = l + y.len;
            let c = contrasts(&s[n..p], x.tag, &s[k..u], y.tag, &t[l..v]);
            Turn {
                found: differing(c, i, j),
                next: a.next,
                other: b.next,
            }
        }
        Ordering::Greater => Turn {
            found: Some(Found::DeviceOnly(j)),
            next: i,
            other: b.next,
        },
    }
}

// The turn at offset i of the reference's walk and offset j of the device's; none where one of them has no binding left.
pub fn turn_at(s: &[u8], i: usize, t: &[u8], j: usize) -> Option<Turn>
    ensures { result ≡ turn_at s.now i t.now j }
{
    let a = binding_at(SET, s, i).ok()?;
    let b = binding_at(SET, t, j).ok()?;
    Some(turn_of(s, i, a, t, j, b))
}

// Puts one entry into the list from index at on, and tells where the next one goes.
fn put_twenty(
    list: &mut [u8],
    at: usize,
    kind: u8,
    c: Contrast,
    reference: usize,
    device: usize,
) -> usize
    requires { at + 20 ≤ length list.old }
    ensures { (result ≡ at + 20) × (list.new ≡ patch list.old at (twenty kind c.ours c.theirs c.first reference device)) }
{
    let head = [kind, c.ours, c.theirs, c.first];
    copy_in(list, at, &head);
    put(list, at + REFERENCE_AT, 8, reference as u64);
    put(list, at + DEVICE_AT, 8, device as u64);
    at + ENTRY
}

// Puts the entry of what a turn finds, if there is one, into the list from index at on, and tells where the next one goes.
pub(crate) fn put_entry(list: &mut [u8], at: usize, found: Option<Found>) -> usize
    requires { at + length (found_octets found) ≤ length list.old }
    ensures { (result ≡ at + length (found_octets found)) × (list.new ≡ patch list.old at (found_octets found)) }
{
    let Some(entry) = found else {
        return at;
    };
    match entry {
        Found::ReferenceOnly(i) => put_twenty(list, at, REFERENCE_ONLY, NO_PORTS, i, 0),
        Found::DeviceOnly(j) => put_twenty(list, at, DEVICE_ONLY, NO_PORTS, 0, j),
        Found::Differing {
            contrast,
            reference,
            device,
        } => put_twenty(list, at, DIFFERING, contrast, reference, device),
    }
}
