// The object type of a name, and the name of an instance.
ghost use Rattle.std.specs.Result.{MatchResult, result_ok};
ghost use Rattle.std.specs.Prelude.{◌≡◌, ◌+◌, ◌<◌, ◌≤◌, length};
ghost use Rattle.octets.specs.Parts.{patch};
ghost use Rattle.names.specs.Index.{limit, answered};
ghost use Rattle.names.specs.Instances.{instance_name, name_size};
ghost use Rattle.names.specs.Table.{root, prefix_of, objects, place_under, place_of, passed_in};
ghost use Rattle.names.specs.Order.{side_of};
ghost use Rattle.names.specs.SubIds.{subids, name_octets};

use super::index::{index_len, put_index};
use super::order::{put_subids, stands};
use names::order::Side;
use names::table::{OBJECT_COUNT, ObjectType, ROOT, object};

// How a name stands to the root.
pub fn root_side(name: &[u8]) -> Side
    ensures { result ≡ side_of (subids name.now) root }
{
    stands(name, &ROOT)
}

// How what follows the root in a name stands to an object type.
pub fn type_side(rest: &[u8], o: ObjectType) -> Side
    requires { o.len ≤ 6 }
    ensures { result ≡ side_of (subids rest.now) (prefix_of o) }
{
    // By itself, as compiled code lays out all of an object type that is lent.
    let prefix = o.prefix;
    stands(rest, &prefix[..o.len])
}

// Looks up what follows the root in a name, by halving the ascending table.
// Ok: the object type that is a prefix of it. Err: the first object type not below it.
fn search(rest: &[u8]) -> Result<usize, usize>
    ensures found { result_ok result ≡ answered (place_under 0 objects (subids rest.now)) }
    ensures first { MatchResult result (λ i. i ≡ passed_in objects (subids rest.now)) (λ i. i ≡ passed_in objects (subids rest.now)) }
{
    let mut first: usize = 0;
    let mut last: usize = OBJECT_COUNT;
    // A halving, which counts no index; the table is a match and no slice.
    while first < last {
        let middle = first + (last - first) / 2;
        match type_side(rest, object(middle)) {
            Side::Below => last = middle,
            Side::Prefix => return Ok(middle),
            Side::Above => first = middle + 1,
        }
    }
    Err(first)
}

// The first place whose object type does not stand before what follows the root in a name, or else the table's end.
pub fn first_place(rest: &[u8]) -> usize
    ensures { result ≡ passed_in objects (subids rest.now) }
{
    match search(rest) {
        Ok(i) | Err(i) => i,
    }
}

// The place of the object type that is a prefix of the name.
pub fn type_of(name: &[u8]) -> Option<usize>
    ensures { result ≡ answered (place_of (subids name.now)) }
{
    match root_side(name) {
        Side::Prefix => search(&name[28..]).ok(),
        Side::Below | Side::Above => None,
    }
}

// How many octets the names of an object type's instances have.
pub fn name_size(o: ObjectType) -> usize
    requires { o.len ≤ 6 }
    ensures { result ≡ name_size o }
{
    4 * (7 + o.len + index_len(o.shape))
}

// Puts the name of the instance with the key from index at on.
pub fn put_name(s: &mut [u8], at: usize, o: ObjectType, key: u64)
    requires { (o.len ≤ 6) × (at + name_size o ≤ length s.old) × (key < limit o.shape) }
    ensures { s.new ≡ patch s.old at (name_octets (instance_name o key)) }
{
    put_subids(s, at, &ROOT);
    let prefix = o.prefix;
    put_subids(s, at + 28, &prefix[..o.len]);
    put_index(s, at + 28 + 4 * o.len, o.shape, key);
}
