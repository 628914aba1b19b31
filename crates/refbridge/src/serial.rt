// The calls of the serial console: a host lends a saved state, a chunk and a room.
ghost use Rattle.std.specs.Prelude.{◌≡◌};
ghost use Rattle.console.specs.Calls.{outcome, taking, resetting};

use super::{RbResult, numbered};
use console::{RbConsole, reset, take};

// Takes octets of a chunk, up to the end of a message or to a wrong octet.
pub fn rb_console_take(state: &mut [u8], chunk: &[u8], room: &mut [u8]) -> RbConsole
    ensures { outcome result room.new state.new ≡ taking state.old chunk.now room.old }
{
    take(state, chunk, room)
}

// Makes a state fresh.
pub fn rb_console_reset(state: &mut [u8]) -> RbResult
    ensures { ((result.number, state.new) ≡ resetting state.old) × (result.count ≡ 0) × (result.offset ≡ 0) }
{
    match reset(state) {
        Ok(()) => numbered(0),
        Err(refused) => numbered(u32::from(refused)),
    }
}
