// Which instances there are, and the next one above a name.
#![tactic(auto)]

ghost use Rattle.std.specs.Prelude.{◌≡◌, ◌≤◌, length, true, ◌++◌};
ghost use Rattle.names.specs.SubIds.{subids};
ghost use Rattle.names.specs.Index.{first_above, answered};
ghost use Rattle.names.specs.Table.{root};
ghost use Rattle.names.specs.Instances.{first_key, next_place};
ghost use Rattle.block.specs.Image.{content_of};
ghost use Rattle.block.specs.Lookup.{keys_of};
ghost use Rattle.block.specs.Tables.{rows_of};
ghost use Rattle.block.specs.Valid.{legal};
ghost use Rattle.answer.specs.Values.{keys_in, keys_on};
ghost use Rattle.answer.specs.Get.{elem};
ghost use Rattle.instances.specs.Places.{keys_for, next_of};

use block::reads::{model, ports};
use block::tables::{Table, find_row, first_key_from};
use identifiers::index::{least_above, next_in_row};
use identifiers::types::{first_place, root_side, type_side};
use names::Shape;
use names::device::has_object;
use names::order::Side;
use names::table::{OBJECT_COUNT, ObjectType, object};
use names::targets::Instance;

// Whether a growing table has a row with the key.
pub fn has_row(block: &[u8], t: Table, key: u64) -> bool
    requires { legal block.now ≡ true }
    ensures { result ≡ elem key (keys_of (rows_of t (content_of block.now))) }
{
    find_row(block, t, key).is_ok()
}

// The keys of a shape: so many that always stand, from the first on, or those of a growing table's rows.
#[derive(Clone, Copy, Debug, PartialEq, Eq)]
pub enum Keys {
    Standing { first: u64, count: u64 },
    Growing(Table),
}

fn keys_for(shape: Shape, ports: u32) -> Keys
    ensures { result ≡ keys_for shape ports }
{
    let n = ports as u64;
    match shape {
        Shape::Scalar => Keys::Standing { first: 0, count: 1 },
        Shape::Port => Keys::Standing { first: 1, count: n },
        Shape::PortPriority => Keys::Standing {
            first: 8,
            count: 8 * n,
        },
        Shape::Vlan => Keys::Growing(Table::Vlan),
        Shape::Static => Keys::Growing(Table::Static),
        Shape::Pair => Keys::Growing(Table::Pair),
    }
}

// Whether a row of this shape has the key.
pub fn exists(block: &[u8], shape: Shape, key: u64) -> bool
    requires { legal block.now ≡ true }
    ensures { result ≡ elem key (keys_in (content_of block.now) shape) }
{
    match keys_for(shape, ports(block)) {
        Keys::Standing { first, count } => (first <= key) & (key < first + count),
        Keys::Growing(t) => has_row(block, t, key),
    }
}

// The first key of a shape whose index is above the rest of a name.
fn first_above(block: &[u8], shape: Shape, rest: &[u8]) -> Option<u64>
    requires { legal block.now ≡ true }
    ensures { result ≡ answered (first_above (subids rest.now) shape (keys_in (content_of block.now) shape)) }
{
    match keys_for(shape, ports(block)) {
        Keys::Standing { first, count } => next_in_row(shape, rest, first, count),
        Keys::Growing(t) => first_key_from(block, t, least_above(shape, rest)),
    }
}

// The first key of an object type that is above the name with this rest after the root; an object that the device has not has none.
fn first_key(block: &[u8], o: ObjectType, rest: &[u8]) -> Option<u64>
    requires { (legal block.now ≡ true) × (o.len ≤ 6) × (o.len ≤ length o.prefix) }
    ensures { result ≡ answered (first_key (root ++ subids rest.now) o (keys_on (content_of block.now) o)) }
{
    let m = model(block);
    if !has_object(m.device, o) {
        return None;
    }
    let shape = o.shape;
    match type_side(rest, o) {
        Side::Below => first_above(block, shape, &rest[rest.len()..]),
        Side::Prefix => first_above(block, shape, &rest[4 * o.len..]),
        Side::Above => None,
    }
}

// The next instance above the name with this rest after the root.
fn next_under_root(block: &[u8], rest: &[u8]) -> Option<Instance>
    requires { legal block.now ≡ true }
    ensures { result ≡ next_of (next_place (keys_on (content_of block.now)) (root ++ subids rest.now)) }
{
    for i in first_place(rest)..OBJECT_COUNT {
        if let Some(key) = first_key(block, object(i), rest) {
            return Some(Instance { place: i, key: key });
        }
    }
    None
}

// The next instance above a name.
pub fn next_place(block: &[u8], name: &[u8]) -> Option<Instance>
    requires { legal block.now ≡ true }
    ensures { result ≡ next_of (next_place (keys_on (content_of block.now)) (subids name.now)) }
{
    match root_side(name) {
        Side::Below => next_under_root(block, &name[name.len()..]),
        Side::Prefix => next_under_root(block, &name[28..]),
        Side::Above => None,
    }
}
