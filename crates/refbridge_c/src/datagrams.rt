// The exports for SNMPv2c datagrams.
ghost use Rattle.std.specs.Prelude.{◌≡◌, true, false};
ghost use Rattle.datagram.specs.Reading.{given, from_datagram};
ghost use Rattle.sending.specs.Writing.{to_datagram};
ghost use Rattle.refbridge.specs.Datagrams.{sent_by};

use datagram::placing::RbDatagram;
use refbridge::RbResult;

// Reads a request.
#[unsafe(no_mangle)]
pub extern "C" fn rb_from_datagram(datagram: &[u8], room: &mut [u8]) -> RbDatagram
    ensures { given result room.new ≡ from_datagram false room.old datagram.now }
{
    refbridge::datagrams::rb_from_datagram(datagram, room)
}

// Reads a request, or a response that was captured.
#[unsafe(no_mangle)]
pub extern "C" fn rb_from_captured(datagram: &[u8], room: &mut [u8]) -> RbDatagram
    ensures { given result room.new ≡ from_datagram true room.old datagram.now }
{
    refbridge::datagrams::rb_from_captured(datagram, room)
}

// Writes a response, with the community that it goes back to.
#[unsafe(no_mangle)]
pub extern "C" fn rb_to_datagram(message: &[u8], community: &[u8], room: &mut [u8]) -> RbResult
    ensures { sent_by result room.new ≡ to_datagram room.old community.now message.now }
{
    refbridge::datagrams::rb_to_datagram(message, community, room)
}
