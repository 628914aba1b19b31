// The calls for SNMPv2c datagrams (request E2). None has a `requires`; each ensures number, count, places and the room afterwards.
ghost use Rattle.std.specs.Prelude.{◌≡◌, true, false};
ghost use Rattle.datagram.specs.Reading.{given, from_datagram};
ghost use Rattle.sending.specs.Writing.{to_datagram};
ghost use Rattle.refbridge.specs.Datagrams.{sent_by};

use super::RbResult;
use datagram::placing::{RbDatagram, from_datagram};
use sending::to_datagram;

// Reads a request.
pub fn rb_from_datagram(datagram: &[u8], room: &mut [u8]) -> RbDatagram
    ensures { given result room.new ≡ from_datagram false room.old datagram.now }
{
    from_datagram(false, datagram, room)
}

// Reads a request, or a response that was captured.
pub fn rb_from_captured(datagram: &[u8], room: &mut [u8]) -> RbDatagram
    ensures { given result room.new ≡ from_datagram true room.old datagram.now }
{
    from_datagram(true, datagram, room)
}

// Writes a response, with the community that it goes back to.
pub fn rb_to_datagram(message: &[u8], community: &[u8], room: &mut [u8]) -> RbResult
    ensures { sent_by result room.new ≡ to_datagram room.old community.now message.now }
{
    match to_datagram(message, community, room) {
        Ok(count) => RbResult {
            number: 0,
            count: count as u32,
            offset: 0,
        },
        Err(r) => RbResult {
            number: u32::from(r.reason),
            count: 0,
            offset: r.at as u32,
        },
    }
}
