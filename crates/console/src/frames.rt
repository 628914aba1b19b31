// The frames of a batch (E10), each found in its place.
ghost use Rattle.std.specs.Prelude.{◌≡◌, map, ◌≤◌, length, take};
ghost use Rattle.console.specs.Refusals.{number_in};
ghost use Rattle.console.specs.Batch.{most_frames, octets_at, frames_of, Means, AllWithin};

use super::header::{FRESH, HEADER_OCTETS, read_header};
use super::refusals::StreamRefused;

// Where a message stands in a batch.
#[derive(Clone, Copy, Drop)]
pub struct Span {
    pub start: usize,
    pub len: usize,
}

// The first messages of a batch in their places: all of them, or those before the refusal that ends it.
// Fixed memory: an array holds the spans, and count tells how many of them are used.
#[derive(Drop)]
pub struct Frames {
    pub end: Result<(), StreamRefused>,
    pub count: usize,
    pub spans: [Span; 64],
}

pub const MOST_FRAMES: usize = 64;

const NO_SPAN: Span = Span { start: 0, len: 0 };

// The frame that starts at index at.
pub fn frame_at(batch: &[u8], at: usize) -> Result<Span, StreamRefused>
    requires { at ≤ length batch.now }
    ensures { Means batch.now at result }
{
    let h = read_header(&batch[at..], FRESH);
    let p = h.reached?;
    if p.count != HEADER_OCTETS {
        return Err(StreamRefused::HeaderWrong);
    }
    let start = at + h.taken;
    let len = p.size;
    if batch.len() - start < len {
        return Err(StreamRefused::HeaderWrong);
    }
    Ok(Span { start, len })
}

// The frames of a batch, at most 64.
pub fn frames_of(batch: &[u8]) -> Frames
    ensures { ((map (octets_at batch.now) (take result.count result.spans), number_in result.end) ≡ frames_of most_frames batch.now) × (result.count ≤ most_frames) × AllWithin batch.now result.spans result.count }
{
    let mut spans = [NO_SPAN; 64];
    let mut at: usize = 0;
    for n in 0..MOST_FRAMES {
        if at == batch.len() {
            return Frames {
                end: Ok(()),
                count: n,
                spans,
            };
        }
        match frame_at(batch, at) {
            Err(refused) => {
                return Frames {
                    end: Err(refused),
                    count: n,
                    spans,
                };
            }
            Ok(s) => {
                spans[n] = s;
                at = s.start + s.len;
            }
        }
    }
    let end = if at < batch.len() {
        Err(StreamRefused::TooManyFrames)
    } else {
        Ok(())
    };
    Frames {
        end,
        count: MOST_FRAMES,
        spans,
    }
}
