// What a pass over the list keeps, and one record more. Counts stop at 65,535, the longest list.
ghost use Rattle.std.specs.Prelude.{◌≡◌};
ghost use Rattle.tally.specs.Scan.{step_of, fresh, more, follows, sound_at};

use super::RbCase;
use super::codes::{
    MOST_CASES, STATE_BROKEN, STATE_FAILED, STATE_NOT_RUN, STATE_PASSED, STATE_RUNNING,
};

// A case that was asked for: where it stands, and its state.
#[derive(Clone, Copy, Debug, PartialEq, Eq)]
pub struct Found {
    pub place: usize,
    pub state: u32,
}

#[derive(Clone, Copy, Debug, PartialEq, Eq)]
pub struct Scan {
    // Every record so far is in order and in a known state, and one at most runs.
    pub good: bool,
    // The id of the record before.
    pub last: Option<u32>,
    // Where the running case stands.
    pub runner: Option<usize>,
    // The case that was asked for.
    pub found: Option<Found>,
    pub passed: u32,
    pub failed: u32,
    pub broken: u32,
    pub not_run: u32,
}

pub fn begin() -> Scan
    ensures { result ≡ fresh }
{
    Scan {
        good: true,
        last: None,
        runner: None,
        found: None,
        passed: 0,
        failed: 0,
        broken: 0,
        not_run: 0,
    }
}

fn count_if(hit: bool, n: u32) -> u32
    ensures { result ≡ more hit n }
{
    if hit & ((n as usize) < MOST_CASES) {
        return n + 1;
    }
    n
}

// Whether an id may stand after the one before it.
fn follows(last: Option<u32>, id: u32) -> bool
    ensures { result ≡ follows last id }
{
    match last {
        Some(before) => before < id,
        None => true,
    }
}

// Whether a record may stand at this place, after one with the id `last`, where another runs or not.
fn sound_at(last: Option<u32>, runs: bool, at: usize, case: &RbCase) -> bool
    ensures { result ≡ sound_at last runs at case.now }
{
    ((at < MOST_CASES) & follows(last, case.id))
        & ((case.state <= STATE_BROKEN) & !(runs & (case.state == STATE_RUNNING)))
}

pub(crate) fn step(s: Scan, sought: u32, at: usize, case: &RbCase) -> Scan
    ensures { result ≡ step_of sought s at case.now }
{
    let state = case.state;
    let here = Found {
        place: at,
        state: state,
    };
    Scan {
        good: s.good & sound_at(s.last, s.runner.is_some(), at, case),
        last: Some(case.id),
        runner: s.runner.or((state == STATE_RUNNING).then_some(at)),
        found: s.found.or((case.id == sought).then_some(here)),
        passed: count_if(state == STATE_PASSED, s.passed),
        failed: count_if(state == STATE_FAILED, s.failed),
        broken: count_if((state == STATE_RUNNING) | (state == STATE_BROKEN), s.broken),
        not_run: count_if(state == STATE_NOT_RUN, s.not_run),
    }
}
