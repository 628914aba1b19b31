// What a pass over the list means for an event and for a report.
ghost use Rattle.std.specs.Prelude.{◌≡◌, IfOk};
ghost use Rattle.tally.specs.Refusals.{number_in};
ghost use Rattle.tally.specs.Run.{unknown, not_startable, none_running, mark_fits, state_after};
ghost use Rattle.tally.specs.Scan.{legal_of, state_found, number_found, place_of, write_of, mark_of, report_of};

use super::codes::{
    ACCEPTED, EVENT_CRASH, EVENT_END, EVENT_FAIL, EVENT_PASS, EVENT_START, MARK_CLEAR, MARK_SET,
    STATE_BROKEN, STATE_NOT_RUN, STATE_RUNNING,
};
use super::refusals::Refused;
use super::steps::{Found, Scan};

// How many cases are in each class.
#[repr(C)]
#[derive(Drop)]
pub struct RbReport {
    pub number: u32,
    pub passed: u32,
    pub failed: u32,
    pub broken: u32,
    pub not_run: u32,
}

// Which record gets which state.
#[derive(Clone, Copy, Debug, PartialEq, Eq)]
pub struct Write {
    pub at: usize,
    pub state: u32,
}

// The mark is clear, or set with none running.
fn mark_fits(mark: u8, runs: bool) -> bool
    ensures { result ≡ mark_fits mark runs }
{
    (mark == MARK_CLEAR) | ((mark == MARK_SET) & !runs)
}

fn is_legal(s: &Scan, mark: u8) -> bool
    ensures { result ≡ legal_of s.now mark }
{
    s.good & mark_fits(mark, s.runner.is_some())
}

// 11: an event or an id that is not known.
fn is_unknown(event: u32, listed: bool) -> bool
    ensures { result ≡ unknown event listed }
{
    !((EVENT_START <= event) & (event <= EVENT_END)) | ((event <= EVENT_FAIL) & !listed)
}

// 12: a start of a case already started, or while one runs.
fn not_startable(event: u32, runs: bool, state: u32) -> bool
    ensures { result ≡ not_startable event runs state }
{
    (event == EVENT_START) & (!(state == STATE_NOT_RUN) | runs)
}

// 13: a verdict or a crash with none running, or a verdict for another case.
fn none_running(event: u32, runs: bool, state: u32) -> bool
    ensures { result ≡ none_running event runs state }
{
    ((EVENT_PASS <= event) & (event <= EVENT_CRASH))
        & (!runs | ((event <= EVENT_FAIL) & !(state == STATE_RUNNING)))
}

// A case that is not listed is not run.
fn state_found(found: Option<Found>) -> u32
    ensures { result ≡ state_found found }
{
    found.map_or(STATE_NOT_RUN, |f| f.state)
}

// Judged 15, 14, 11, 12, 13.
fn judge_event(s: &Scan, mark: u8, event: u32) -> Result<(), Refused>
    ensures { number_in result ≡ number_found s.now mark event }
{
    let runs = s.runner.is_some();
    let state = state_found(s.found);
    if !is_legal(s, mark) {
        return Err(Refused::Run);
    }
    if mark == MARK_SET {
        return Err(Refused::Ended);
    }
    if is_unknown(event, s.found.is_some()) {
        return Err(Refused::Unknown);
    }
    if not_startable(event, runs, state) {
        return Err(Refused::Start);
    }
    if none_running(event, runs, state) {
        return Err(Refused::Verdict);
    }
    Ok(())
}

// A start writes where its id stands, another event where the running case stands.
fn place_of(s: &Scan, event: u32) -> Option<usize>
    ensures { result ≡ place_of s.now event }
{
    if event == EVENT_START {
        return s.found.map(|f| f.place);
    }
    s.runner
}

// Running, passed and failed have the numbers of start, pass and fail; crash and end break.
fn state_after(event: u32) -> u32
    ensures { result ≡ state_after event }
{
    if event <= EVENT_FAIL {
        return event;
    }
    STATE_BROKEN
}

// Judges an event, sets the mark for an accepted end, and tells what is written, if anything is.
pub fn decide(ended: &mut u8, s: &Scan, event: u32) -> Result<Option<Write>, Refused>
    ensures number { number_in result ≡ number_found s.now ended.old event }
    ensures write { IfOk result (λ w. w ≡ write_of s.now event) }
    ensures mark { ended.new ≡ mark_of s.now ended.old event }
{
    judge_event(s, *ended, event)?;
    if event == EVENT_END {
        *ended = MARK_SET;
    }
    let state = state_after(event);
    Ok(place_of(s, event).map(|at| Write { at, state }))
}

pub fn reported(s: &Scan, mark: u8) -> RbReport
    ensures { result ≡ report_of s.now mark }
{
    if is_legal(s, mark) {
        return RbReport {
            number: ACCEPTED,
            passed: s.passed,
            failed: s.failed,
            broken: s.broken,
            not_run: s.not_run,
        };
    }
    RbReport {
        number: u32::from(Refused::Run),
        passed: 0,
        failed: 0,
        broken: 0,
        not_run: 0,
    }
}
