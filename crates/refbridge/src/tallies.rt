// The run tally's calls. One pass over the list, then functions on numbers, then at most one state written.
ghost use Rattle.std.specs.Prelude.{◌≡◌};
ghost use Rattle.tally.specs.Run.{feed, report};
ghost use Rattle.refbridge.specs.Tallies.{fed_by};

use super::{RbResult, numbered};
use tally::judge::{RbReport, decide, reported};
use tally::{RbCase, put_state, scan};

// Feeds one event to a run.
pub fn rb_tally_event(cases: &mut [RbCase], ended: &mut u8, event: u32, id: u32) -> RbResult
    ensures { (fed_by result cases.new ended.new ≡ feed cases.old ended.old event id) × (result.count ≡ 0) × (result.offset ≡ 0) }
{
    match decide(ended, &scan(cases, id), event) {
        Ok(write) => {
            put_state(cases, write);
            numbered(0)
        }
        Err(refused) => numbered(u32::from(refused)),
    }
}

// Reports how many cases of a run are in each class.
pub fn rb_tally_report(cases: &[RbCase], ended: u8) -> RbReport
    ensures { result ≡ report cases.now ended }
{
    reported(&scan(cases, 0), ended)
}
