// The messages of a batch that is read, each found in its place again.
ghost use Rattle.std.specs.Prelude.{◌≡◌, true, ◌≤◌, Ok};
ghost use Rattle.message.specs.Request.{read_request};
ghost use Rattle.answer.specs.Terms.{is_set};
ghost use Rattle.console.specs.Batch.{octets_at, Within, Means};
ghost use Rattle.batch.specs.Names.{groups_of};
ghost use Rattle.batch.specs.Found.{groups, Few, Goes};

use super::groups::{NamedGroups, groups_in};
use console::frames::{Span, frame_at};
use names::model::Model;

// The message whose frame starts at index at.
pub fn message_at(batch: &[u8], at: usize) -> Span
    requires { Goes batch.now at }
    ensures { Means batch.now at (Ok result) }
{
    match frame_at(batch, at) {
        Ok(s) => s,
        Err(_) => Span { start: 0, len: 0 },
    }
}

// What the message at a place names.
pub fn groups_at(model: Model, batch: &[u8], s: Span) -> NamedGroups
    requires { (model.ports ≤ 64) × Within batch.now s × (is_set (read_request (octets_at batch.now s)) ≡ true) }
    ensures { (groups result ≡ groups_of model (octets_at batch.now s)) × Few result }
{
    let at = s.start;
    let end = at + s.len;
    groups_in(model, &batch[at..end])
}
