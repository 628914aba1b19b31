// The run tally: a lent list of case records and a lent mark, fed with events one at a time. `scan` reads every record once and `put_state` writes
// one state. What a record adds to the pass is in steps, and what the pass means for an event and for a report in judge. The exported calls join
// them (refbridge's `tallies`).
#![tactic(auto)]

ghost use Rattle.std.specs.Prelude.{◌≡◌};
ghost use Rattle.tally.specs.Scan.{scanned, at_write};

pub mod codes;
pub mod judge;
pub mod refusals;
pub mod steps;

use judge::Write;
use steps::{Scan, begin, step};

// A case: its id and its state.
#[repr(C)]
#[derive(Drop)]
pub struct RbCase {
    pub id: u32,
    pub state: u32,
}

// One pass over the list: all that an event or a report asks of it.
pub fn scan(cases: &[RbCase], sought: u32) -> Scan
    ensures { result ≡ scanned sought cases.now }
{
    let mut s = begin();
    for (i, case) in cases.iter().enumerate() {
        s = step(s, sought, i, case);
    }
    s
}

// Writes one state, where that is asked for and there is such a record.
pub fn put_state(cases: &mut [RbCase], write: Option<Write>)
    ensures { cases.new ≡ at_write write cases.old }
{
    if let Some(w) = write {
        if w.at < cases.len() {
            cases[w.at].state = w.state;
        }
    }
}
