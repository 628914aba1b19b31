// The exports of the run tally.
ghost use Rattle.std.specs.Prelude.{◌≡◌};
ghost use Rattle.tally.specs.Run.{feed, report};
ghost use Rattle.refbridge.specs.Tallies.{fed_by};

use refbridge::RbResult;
use tally::RbCase;
use tally::judge::RbReport;

// Feeds one event to a run.
#[unsafe(no_mangle)]
pub extern "C" fn rb_tally_event(
    cases: &mut [RbCase],
    ended: &mut u8,
    event: u32,
    id: u32,
) -> RbResult
    ensures { (fed_by result cases.new ended.new ≡ feed cases.old ended.old event id) × (result.count ≡ 0) × (result.offset ≡ 0) }
{
    refbridge::tallies::rb_tally_event(cases, ended, event, id)
}

// Reports how many cases of a run are in each class.
#[unsafe(no_mangle)]
pub extern "C" fn rb_tally_report(cases: &[RbCase], ended: u8) -> RbReport
    ensures { result ≡ report cases.now ended }
{
    refbridge::tallies::rb_tally_report(cases, ended)
}
