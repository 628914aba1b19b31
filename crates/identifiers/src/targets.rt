// What a name leads to: its object type and the key of its index.
ghost use Rattle.std.specs.Prelude.{◌≡◌, ◌+◌, ◌*◌, ◌≤◌, ◌<◌, length};
ghost use Rattle.std.proofs.Math.Option.{some};
ghost use Rattle.names.specs.SubIds.{subids};
ghost use Rattle.names.specs.Table.{object_count, object_at};
ghost use Rattle.names.specs.Targets.{target_under, on_model, target_in};

use super::index::key_of;
use super::types::type_of;
use names::device::has_object;
use names::model::Model;
use names::table::object;
use names::targets::{Instance, NoInstance};

// What a name leads to that has the object at place i as a prefix.
fn target_under(m: Model, i: usize, name: &[u8]) -> Result<Instance, NoInstance>
    requires { (m.ports ≤ 64) × (i < object_count) × (4 * (7 + (object_at i).len) ≤ length name.now) }
    ensures { result ≡ target_under m (subids name.now) (on_model m (some i)) }
{
    let o = object(i);
    if has_object(m.device, o) {
        let shape = o.shape;
        let at = 4 * (7 + o.len);
        match key_of(m, shape, &name[at..]) {
            Some(key) => Ok(Instance { place: i, key }),
            None => Err(NoInstance::NoIndex(i)),
        }
    } else {
        Err(NoInstance::NoObject)
    }
}

// What a name leads to on a model.
pub fn target_of(m: Model, name: &[u8]) -> Result<Instance, NoInstance>
    requires { m.ports ≤ 64 }
    ensures { result ≡ target_in m (subids name.now) }
{
    match type_of(name) {
        Some(i) => target_under(m, i, name),
        None => Err(NoInstance::NoObject),
    }
}
