// The octets of a saved state: written, and tested.
ghost use Rattle.std.specs.Prelude.{◌≡◌, ◌<◌, [], ◌++◌, length, drop};
ghost use Rattle.console.specs.State.{is_left, state, state_size, at_contents};
ghost use Rattle.console.specs.Positions.{FrontOf, front, numbers_ok, held_in};

use super::header::LAST_MISSING;
use super::refusals::StreamRefused;
use message::sizes::MOST_OCTETS;
use octets::numbers::{be2, put};
use octets::parts::{all_zero, clear};

// The length of a state.
pub const STATE_OCTETS: usize = 1477;

// Where its parts start: a phase of one octet, two numbers of two octets, and the contents.
pub const AT_PHASE: usize = 0;

pub const AT_COUNT: usize = 1;

pub const AT_SIZE: usize = 3;

pub const AT_CONTENTS: usize = 5;

// The phases of a stream that goes on. The phase of one that ended is its number.
// A number, as the octet comes from C.
pub const HEADER_PHASE: u8 = 0;

pub const CONTENTS_PHASE: u8 = 1;

// The numbers of a state: its phase, and a count and a message length, of the header or of the contents.
#[derive(Clone, Copy, Drop)]
pub struct Front {
    pub phase: u8,
    pub count: usize,
    pub size: usize,
}

// Those of a stream before a frame.
pub const FRESH_FRONT: Front = Front {
    phase: HEADER_PHASE,
    count: 0,
    size: 0,
};

// Reads the numbers of a state.
pub fn front_of(state: &[u8]) -> Front
    requires { length state.now ≡ state_size }
    ensures { FrontOf state.now result }
{
    Front {
        phase: state[AT_PHASE],
        count: be2(state, AT_COUNT) as usize,
        size: be2(state, AT_SIZE) as usize,
    }
}

impl Front {
    // Writes them, and leaves the contents.
    pub fn put(self, state: &mut [u8])
        requires { length state.old ≡ state_size }
        ensures { state.new ≡ front self.phase self.count self.size ++ drop at_contents state.old }
    {
        state[AT_PHASE] = self.phase;
        put(state, AT_COUNT, 2, self.count as u64);
        put(state, AT_SIZE, 2, self.size as u64);
    }

    // Writes a state that has them and no contents.
    pub fn put_bare(self, saved: &mut [u8])
        requires { length saved.old ≡ state_size }
        ensures { saved.new ≡ state self.phase self.count self.size [] }
    {
        clear(saved, AT_CONTENTS, MOST_OCTETS);
        self.put(saved);
    }

    // Whether a stream leaves them in a state.
    fn is_sound(self) -> bool
        requires { self.size < 65536 }
        ensures { result ≡ numbers_ok self.phase self.count self.size }
    {
        let count = self.count;
        let size = self.size;
        if self.phase == HEADER_PHASE {
            return (count < LAST_MISSING) & (size == 0)
                | (count == LAST_MISSING) & (size % 256 == 0);
        }
        if self.phase == CONTENTS_PHASE {
            return (size <= MOST_OCTETS) & (count < size);
        }
        let number = self.phase as u32;
        let wrong = number == u32::from(StreamRefused::HeaderWrong);
        let over = number == u32::from(StreamRefused::LengthOver);
        (wrong | over) & ((count == 0) & (size == 0))
    }

    // How many octets of contents they speak of.
    fn held(self) -> usize
        ensures { result ≡ held_in self.phase self.count }
    {
        if self.phase == CONTENTS_PHASE {
            self.count
        } else {
            0
        }
    }
}

// Whether these octets are a state that a stream leaves.
pub fn is_left(state: &[u8]) -> bool
    ensures { result ≡ is_left state.now }
{
    if state.len() != STATE_OCTETS {
        return false;
    }
    let front = front_of(state);
    if !front.is_sound() {
        return false;
    }
    let held = front.held();
    all_zero(state, AT_CONTENTS + held, MOST_OCTETS - held)
}
