// A set's bindings, each judged by itself: the faults 5, 17, 7, 8, 10 and 11, and what a clean binding writes.
ghost use Rattle.std.specs.Prelude.{◌≡◌, ℕ, ◌+◌, ◌^◌, ◌<◌, ◌≤◌, map, length, get_or};
ghost use Rattle.octets.specs.Parts.{part};
ghost use Rattle.names.specs.Table.{object_count};
ghost use Rattle.answer.specs.Judge.{is_writable, content_said, alone};
ghost use Rattle.answer.specs.Respond.{asked_at};
ghost use Rattle.verdict.specs.Kept.{said_number, said_ports, content_said_of, kept_of, meant, bare, meant_by, judged_in, named_before, Stands, AllStand, Within, AllWithin};

use answer::faults::Fault;
use identifiers::targets::target_of;
use message::request::Binding;
use names::model::Model;
use names::places::VLAN_ROW_STATUS;
use names::rule::takes_value;
use names::table::{Access, Syntax, object};
use names::targets::{Instance, NoInstance};
use octets::numbers::be4;
use octets::parts::same_octets;
use octets::ports::{only_to, set_at};
use values::tag_of;

// A clean binding judged by itself: the place of its object type, its key, the number or port set of its content, and where that content stands.
// Sixteen of them are kept, so the fields are no wider than what they hold.
#[derive(Clone, Copy, Drop)]
pub struct Kept {
    pub place: u8,
    pub len: u8,
    pub at: u16,
    pub key: u64,
    pub value: u64,
}

// What is kept of a text's content.
const NO_NUMBER: u64 = 0;

fn is_writable(access: Access) -> bool
    ensures { result ≡ is_writable access }
{
    match access {
        Access::ReadOnly => false,
        Access::ReadWrite => true,
    }
}

// A number of the object at place i, in an edition: of the statuses in its range, RowStatus does not take 3.
fn said_number(edition: u32, i: usize, v: u32) -> Result<u64, Fault>
    requires { i < object_count }
    ensures { result ≡ said_number edition i v }
{
    let not_ready = (i == VLAN_ROW_STATUS) & (v == 3);
    if takes_value(edition, object(i), v) & !not_ready {
        return Ok(v as u64);
    }
    Err(Fault::WrongValue)
}

// A port set in len octets of the request from index at on.
fn said_ports(m: Model, request: &[u8], at: usize, len: usize) -> Result<u64, Fault>
    requires { (1 ≤ m.ports) × (m.ports ≤ 64) × (at + len ≤ length request.now) }
    ensures { result ≡ said_ports m (part request.now at len) }
{
    if 8 < len {
        return Err(Fault::WrongLength);
    }
    let set = set_at(request, at, len);
    if only_to(m.ports, set) {
        return Ok(set);
    }
    Err(Fault::WrongValue)
}

// What the content of a binding says to the object at place i: a number or a port set. A text has no number: it is read where it stands.
fn said_by(m: Model, i: usize, request: &[u8], b: Binding) -> Result<u64, Fault>
    requires { (1 ≤ m.ports) × (m.ports ≤ 64) × (i < object_count) × Stands request.now b }
    ensures { content_said_of i (part request.now b.content b.len) result ≡ content_said m i b.tag (part request.now b.content b.len) }
{
    let o = object(i);
    let access = o.access;
    let syntax = o.syntax;
    if !is_writable(access) {
        return Err(Fault::NotWritable);
    }
    if b.tag != tag_of(syntax) {
        return Err(Fault::WrongType);
    }
    match syntax {
        Syntax::Text => {
            if o.high < b.len as u32 {
                return Err(Fault::WrongLength);
            }
            Ok(NO_NUMBER)
        }
        Syntax::Ports => said_ports(m, request, b.content, b.len),
        Syntax::Integer => said_number(m.edition, i, be4(request, b.content)),
        Syntax::Unsigned => said_number(m.edition, i, be4(request, b.content)),
        Syntax::Counter => said_number(m.edition, i, be4(request, b.content)),
    }
}

// The name of a binding, as it stands in the request.
fn name_of(request: &[u8], b: Binding) -> &[u8]
    requires { b.name + b.size ≤ length request.now }
    ensures { result.now ≡ part request.now b.name b.size }
{
    &request[b.name..b.name + b.size]
}

// A clean binding that names an instance.
fn kept_of(instance: Instance, value: u64, b: Binding) -> Kept
    requires { (instance.place < object_count) × (b.len < 2 ^ 8) × (b.content < 2 ^ 16) }
    ensures { result ≡ kept_of instance.place instance.key value b }
{
    Kept {
        place: instance.place as u8,
        len: b.len as u8,
        at: b.content as u16,
        key: instance.key,
        value,
    }
}

// A binding by itself. Where its name has no index that this bridge can have, the fault of its content comes first.
fn judged_alone(m: Model, request: &[u8], b: Binding) -> Result<Kept, Fault>
    requires { (1 ≤ m.ports) × (m.ports ≤ 64) × Stands request.now b }
    ensures { (meant request.now result ≡ bare (alone m (asked_at request.now b))) × Within request.now result }
{
    match target_of(m, name_of(request, b)) {
        Err(NoInstance::NoObject) => Err(Fault::NotWritable),
        Err(NoInstance::NoIndex(place)) => {
            said_by(m, place, request, b)?;
            Err(Fault::NoCreation)
        }
        Ok(instance) => {
            let value = said_by(m, instance.place, request, b)?;
            Ok(kept_of(instance, value, b))
        }
    }
}

// Whether the name of a binding stands in an earlier binding.
fn named_before(request: &[u8], earlier: &[Binding], b: Binding) -> bool
    requires { AllStand request.now earlier.now × Stands request.now b }
    ensures { result ≡ named_before request.now earlier.now b }
{
    let name = name_of(request, b);
    for e in earlier {
        if same_octets(name, name_of(request, *e)) {
            return true;
        }
    }
    false
}

// The bindings of a set, each judged by itself, are put where as many are kept.
pub fn judge_each(m: Model, request: &[u8], bindings: &[Binding], kept: &mut [Result<Kept, Fault>])
    requires { (1 ≤ m.ports) × (m.ports ≤ 64) × AllStand request.now bindings.now × (length kept.old ≡ length bindings.now) }
    ensures { (meant_by request.now kept.new ≡ map bare (judged_in m request.now bindings.now)) × AllWithin request.now kept.new }
{
    for (i, b) in bindings.iter().enumerate() {
        kept[i] = if named_before(request, &bindings[..i], *b) {
            Err(Fault::GenErr)
        } else {
            judged_alone(m, request, *b)
        };
    }
}
