// What the bindings of a message name.
ghost use Rattle.std.specs.Prelude.{◌≡◌, true, map, ◌≤◌, take};
ghost use Rattle.names.specs.SubIds.{subids};
ghost use Rattle.message.specs.Request.{read_request};
ghost use Rattle.answer.specs.Terms.{is_set};
ghost use Rattle.answer.specs.Judge.{group_of};
ghost use Rattle.batch.specs.Names.{groups_of, same_group, among, common};
ghost use Rattle.batch.specs.Found.{meant, Few, groups};

use identifiers::targets::target_of;
use message::form::{HEAD_SIZE, MOST_BINDINGS};
use message::kinds::SET;
use message::request::binding_at;
use names::model::Model;
use names::targets::group_of;

// A row or scalar: its group, as the place of its first object, and its key.
#[derive(Clone, Copy, Debug, PartialEq, Eq)]
pub struct NamedGroup {
    pub table: usize,
    pub key: u64,
}

// What each binding of a message names.
// Fixed memory: an array with its count.
#[derive(Clone, Copy)]
pub struct NamedGroups {
    pub count: usize,
    pub all: [Option<NamedGroup>; MOST_BINDINGS],
}

impl NamedGroups {
    pub fn named(&self) -> &[Option<NamedGroup>]
        requires { self.now.count ≤ 16 }
        ensures { result.now ≡ take self.now.count self.now.all }
    {
        let all = &self.all;
        &all[..self.count]
    }
}

// The row or scalar that a name names on a model.
pub fn group_named(model: Model, name: &[u8]) -> Option<NamedGroup>
    requires { model.ports ≤ 64 }
    ensures { meant result ≡ group_of model (subids name.now) }
{
    match target_of(model, name) {
        Ok(instance) => Some(NamedGroup {
            table: group_of(instance.place),
            key: instance.key,
        }),
        Err(_) => None,
    }
}

// What a set names: its bindings are read one after the other, behind the head, and not kept.
pub fn groups_in(model: Model, m: &[u8]) -> NamedGroups
    requires { (model.ports ≤ 64) × (is_set (read_request m.now) ≡ true) }
    ensures { (groups result ≡ groups_of model m.now) × Few result }
{
    let mut all = [None; MOST_BINDINGS];
    let mut at: usize = HEAD_SIZE;
    for count in 0..MOST_BINDINGS {
        if m.len() <= at {
            return NamedGroups { count, all };
        }
        match binding_at(SET, m, at) {
            Err(_) => {
                return NamedGroups { count, all };
            }
            Ok(bound) => {
                let start = bound.binding.name;
                let end = start + bound.binding.size;
                all[count] = group_named(model, &m[start..end]);
                at = bound.next;
            }
        }
    }
    NamedGroups {
        count: MOST_BINDINGS,
        all,
    }
}

pub fn same_group(a: Option<NamedGroup>, b: Option<NamedGroup>) -> bool
    ensures { result ≡ same_group (meant a) (meant b) }
{
    match (a, b) {
        (Some(a), Some(b)) => a == b,
        _ => false,
    }
}

// Whether a row or scalar is among these.
pub fn is_among(t: Option<NamedGroup>, of: &[Option<NamedGroup>]) -> bool
    ensures { result ≡ among (meant t) (map meant of.now) }
{
    for g in of {
        if same_group(t, *g) {
            return true;
        }
    }
    false
}

// Whether two messages name a common row or scalar.
pub fn share(a: &[Option<NamedGroup>], b: &[Option<NamedGroup>]) -> bool
    ensures { result ≡ common (map meant a.now) (map meant b.now) }
{
    for g in a {
        if is_among(*g, b) {
            return true;
        }
    }
    false
}
