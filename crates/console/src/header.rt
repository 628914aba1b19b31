// The header of a frame, octet by octet.
ghost use Rattle.std.specs.Prelude.{◌≡◌};
ghost use Rattle.console.specs.Positions.{InHeader, NextPosition, HeadOf};

use super::refusals::StreamRefused;
use message::sizes::MOST_OCTETS;

// The octets of a header, all of them but the last, and those before the message length.
pub const HEADER_OCTETS: usize = 5;

pub const LAST_MISSING: usize = 4;

const MARK_OCTETS: usize = 3;

// How every frame begins.
const MARK: [u8; 3] = [0x7F, 0, 2];

// How many octets of a header are there, and the message length as far as it is known.
#[derive(Clone, Copy, Drop)]
pub struct Position {
    pub count: usize,
    pub size: usize,
}

// Before a header.
pub const FRESH: Position = Position { count: 0, size: 0 };

// What the next octet of a header makes of a position in it.
fn next_position(at: Position, octet: u8) -> Result<Position, StreamRefused>
    requires { InHeader at.count at.size }
    ensures { NextPosition at octet result }
{
    let count = at.count + 1;
    if at.count < MARK_OCTETS {
        if octet == MARK[at.count] {
            return Ok(Position { count, size: 0 });
        }
        return Err(StreamRefused::HeaderWrong);
    }
    if at.count == MARK_OCTETS {
        let size = octet as usize * 256;
        return Ok(Position { count, size });
    }
    let size = at.size + octet as usize;
    if MOST_OCTETS < size {
        return Err(StreamRefused::LengthOver);
    }
    Ok(Position { count, size })
}

// How many octets of a chunk the header takes, and where they lead.
#[derive(Drop)]
pub struct FrameHead {
    pub taken: usize,
    pub reached: Result<Position, StreamRefused>,
}

// Takes octets of a chunk as far as the header goes.
pub fn read_header(chunk: &[u8], from: Position) -> FrameHead
    requires { InHeader from.count from.size }
    ensures { HeadOf chunk.now from result }
{
    let mut at = from;
    for (i, octet) in chunk.iter().enumerate() {
        let taken = i + 1;
        match next_position(at, *octet) {
            Err(refused) => {
                return FrameHead {
                    taken,
                    reached: Err(refused),
                };
            }
            Ok(next) => {
                if next.count == HEADER_OCTETS {
                    return FrameHead {
                        taken,
                        reached: Ok(next),
                    };
                }
                at = next;
            }
        }
    }
    FrameHead {
        taken: chunk.len(),
        reached: Ok(at),
    }
}
