// Requests over the serial console: a stream of frames, taken in chunks.
#![tactic(auto)]

pub mod frames;
pub mod header;
pub mod refusals;
pub mod state;

ghost use Rattle.std.specs.Prelude.{◌≡◌, ◌≤◌, [], length, drop};
ghost use Rattle.octets.specs.Parts.{part};
ghost use Rattle.message.specs.Answer.{most_octets};
ghost use Rattle.console.specs.Frames.{heading, inside, arrived, run, header_size};
ghost use Rattle.console.specs.State.{at_contents};
ghost use Rattle.console.specs.Calls.{outcome, told, taking, resetting};
ghost use Rattle.console.specs.Positions.{moved, InHeader, Tail};
ghost use Rattle.console.specs.Refusals.{number_in};

use header::{HEADER_OCTETS, Position, read_header};
use message::refusals::Reason;
use message::sizes::MOST_OCTETS;
use octets::parts::{clear, copy_in};
use refusals::StreamRefused;
use state::{
    AT_CONTENTS, CONTENTS_PHASE, FRESH_FRONT, Front, HEADER_PHASE, STATE_OCTETS, front_of, is_left,
};

// What a call returns: its number, the octets that it took, whether it handed out a message, and the message's length.
// The C interface: numbers, and 0 for none.
#[repr(C)]
#[derive(Drop)]
pub struct RbConsole {
    pub number: u32,
    pub taken: u32,
    pub complete: u32,
    pub count: u32,
}

// Takes contents: the octets of the chunk from index at on follow the first held octets of the state's contents.
fn take_contents(
    saved: &mut [u8],
    chunk: &[u8],
    at: usize,
    room: &mut [u8],
    held: usize,
    size: usize,
) -> RbConsole
    requires { Tail saved.old held × (held ≤ size) × (size ≤ most_octets) × (at ≤ length chunk.now) × (at ≤ header_size) × (most_octets ≤ length room.old) }
    ensures { outcome result room.new saved.new ≡ told room.old (moved at (run (drop at chunk.now) (arrived size (part saved.old at_contents held)))) }
{
    let rest = chunk.len() - at;
    let need = size - held;
    if rest < need {
        copy_in(saved, AT_CONTENTS + held, &chunk[at..]);
        let count = held + rest;
        let front = Front {
            phase: CONTENTS_PHASE,
            count,
            size,
        };
        front.put(saved);
        return RbConsole {
            number: 0,
            taken: (at + rest) as u32,
            complete: 0,
            count: 0,
        };
    }
    let from = AT_CONTENTS;
    let end = from + held;
    let to = at + need;
    copy_in(room, 0, &saved[from..end]);
    copy_in(room, held, &chunk[at..to]);
    FRESH_FRONT.put_bare(saved);
    RbConsole {
        number: 0,
        taken: to as u32,
        complete: 1,
        count: size as u32,
    }
}

// Takes octets from a position in a header on.
fn take_header(saved: &mut [u8], chunk: &[u8], room: &mut [u8], at: Position) -> RbConsole
    requires { Tail saved.old 0 × InHeader at.count at.size × (most_octets ≤ length room.old) }
    ensures { outcome result room.new saved.new ≡ told room.old (run chunk.now (inside (heading at.count at.size))) }
{
    let h = read_header(chunk, at);
    match h.reached {
        Err(refused) => {
            let number = u32::from(refused);
            let front = Front {
                phase: number as u8,
                count: 0,
                size: 0,
            };
            front.put_bare(saved);
            RbConsole {
                number,
                taken: h.taken as u32,
                complete: 0,
                count: 0,
            }
        }
        Ok(p) => {
            if p.count == HEADER_OCTETS {
                return take_contents(saved, chunk, h.taken, room, 0, p.size);
            }
            let front = Front {
                phase: HEADER_PHASE,
                count: p.count,
                size: p.size,
            };
            front.put_bare(saved);
            RbConsole {
                number: 0,
                taken: h.taken as u32,
                complete: 0,
                count: 0,
            }
        }
    }
}

fn refusal(number: u32) -> RbConsole
    ensures { result ≡ record { number = number; taken = 0; complete = 0; count = 0 } }
{
    RbConsole {
        number: number,
        taken: 0,
        complete: 0,
        count: 0,
    }
}

// Takes octets of a chunk, up to the end of a message or to a wrong octet.
pub fn take(state: &mut [u8], chunk: &[u8], room: &mut [u8]) -> RbConsole
    ensures { outcome result room.new state.new ≡ taking state.old chunk.now room.old }
{
    if room.len() < MOST_OCTETS {
        return refusal(u32::from(Reason::RoomShort));
    }
    if !is_left(state) {
        return refusal(u32::from(StreamRefused::HeaderWrong));
    }
    let Front { phase, count, size } = front_of(state);
    if CONTENTS_PHASE < phase {
        return refusal(phase as u32);
    }
    if phase == CONTENTS_PHASE {
        return take_contents(state, chunk, 0, room, count, size);
    }
    take_header(state, chunk, room, Position { count, size })
}

// Makes a state fresh, whatever it held.
pub fn reset(state: &mut [u8]) -> Result<(), StreamRefused>
    ensures { (number_in result, state.new) ≡ resetting state.old }
{
    if state.len() != STATE_OCTETS {
        return Err(StreamRefused::HeaderWrong);
    }
    clear(state, 0, STATE_OCTETS);
    Ok(())
}
