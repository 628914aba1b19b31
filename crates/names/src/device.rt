// The devices: which objects each has, and what it says of its type.
ghost use Rattle.std.specs.Prelude.{◌≡◌};
ghost use Rattle.names.specs.Devices.{is_device, device_under, has, type_of};

use super::table::ObjectType;

// Numbers, since a C host and a block's octet give any, and `is_device` judges them.
pub const TRANSPARENT: u32 = 1;

pub const SOURCE_ROUTING: u32 = 2;

pub fn is_device(device: u32) -> bool
    ensures { result ≡ is_device device }
{
    (device == TRANSPARENT) | (device == SOURCE_ROUTING)
}

// The only device that has the objects whose first sub-id under the root is this one; every device has those under 1.
pub fn device_under(id: u32) -> Option<u32>
    ensures { result ≡ device_under id }
{
    match id {
        1 => None,
        3 => Some(SOURCE_ROUTING),
        _ => Some(TRANSPARENT),
    }
}

pub fn has_object(device: u32, o: ObjectType) -> bool
    ensures { result ≡ has device o }
{
    match o.device {
        None => true,
        Some(only) => only == device,
    }
}

// The value of Type.
pub fn type_of_device(device: u32) -> u32
    ensures { result ≡ type_of device }
{
    if device == SOURCE_ROUTING { 3 } else { 2 }
}
