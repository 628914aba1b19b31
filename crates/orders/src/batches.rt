// A batch played in an order, and in two orders beside what the checker says of it.
ghost use Rattle.std.specs.Prelude.{◌≡◌, ◌∷◌, ◌≤◌, ◌<◌, length, get_or};
ghost use Rattle.console.specs.Batch.{most_frames, octets_at, no_span, Within};
ghost use Rattle.orders.specs.Batches.{all_rooms, Turned, PlayedInOrder, TwoOrders};

use batch::RbBatch;
use console::frames::{Span, frames_of};
use message::sizes::MOST_OCTETS;
use refbridge::batches::rb_check_batch;
use refbridge::{RbResult, rb_answer};

// The results of a batch that was played in two orders, and what the checker says of it.
#[derive(Drop)]
pub struct TwoPlays {
    pub verdict: RbBatch,
    pub first: [RbResult; 64],
    pub second: [RbResult; 64],
}

const NO_SPAN: Span = Span { start: 0, len: 0 };

const NO_RESULT: RbResult = RbResult {
    number: 0,
    count: 0,
    offset: 0,
};

// Where the message with a number stands, from 1; no octets for another number.
fn message_numbered(spans: &[Span], number: usize) -> Span
    ensures { result ≡ get_or (no_span ∷ spans.now) number no_span }
{
    if number == 0 {
        return NO_SPAN;
    }
    if spans.len() < number {
        return NO_SPAN;
    }
    spans[number - 1]
}

// One turn: answers the message at a place of the batch, into room k.
fn play_turn(block: &mut [u8], batch: &[u8], s: Span, rooms: &mut [u8], k: usize) -> RbResult
    requires { Within batch.now s × (k < most_frames) × (length rooms.old ≡ all_rooms) }
    ensures { Turned block.old (octets_at batch.now s) rooms.old k result rooms.new block.new }
{
    let start = s.start;
    let end = start + s.len;
    let at = MOST_OCTETS * k;
    let next = at + MOST_OCTETS;
    rb_answer(block, &batch[start..end], &mut rooms[at..next])
}

// Plays a batch in an order: the messages by their numbers, from 1.
pub fn play_batch(block: &mut [u8], batch: &[u8], order: &[u8], rooms: &mut [u8]) -> [RbResult; 64]
    requires { (length order.now ≤ most_frames) × (length rooms.old ≡ all_rooms) }
    ensures { PlayedInOrder block.old batch.now order.now rooms.old result rooms.new block.new }
{
    let frames = frames_of(batch);
    let all = &frames.spans;
    let spans = &all[..frames.count];
    let mut results = [NO_RESULT; 64];
    for (k, number) in order.iter().enumerate() {
        let s = message_numbered(spans, *number as usize);
        results[k] = play_turn(block, batch, s, rooms, k);
    }
    results
}

// Checks a batch for a block, and plays it in two orders, on two blocks and with 64 rooms each.
pub fn any_order(
    one: &mut [u8],
    other: &mut [u8],
    batch: &[u8],
    p: &[u8],
    q: &[u8],
    rooms: &mut [u8],
    more: &mut [u8],
) -> TwoPlays
    requires { (length p.now ≤ most_frames) × (length q.now ≤ most_frames) × (length rooms.old ≡ all_rooms) × (length more.old ≡ all_rooms) }
    ensures { TwoOrders one.old other.old batch.now p.now q.now rooms.old more.old result rooms.new more.new one.new other.new }
{
    let verdict = rb_check_batch(one, batch);
    let first = play_batch(one, batch, p, rooms);
    let second = play_batch(other, batch, q, more);
    TwoPlays {
        verdict,
        first,
        second,
    }
}
