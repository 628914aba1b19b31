// The comparison of two walks, as a C host calls it.
ghost use Rattle.std.specs.Prelude.{◌≡◌, ℕ, List, Err};
ghost use Rattle.walks.specs.Compare.{side_number, refused_with, compared, outcome_of};
ghost use Rattle.refbridge.specs.Comparison.{returned};

use walks::compare::{NotCompared, Side, compare_walks, unread_tail};

// The number, the walk whose tail it is or that is at fault, the offset of a refusal 4 to 6, the tail's place in that walk, and the totals.
#[repr(C)]
#[derive(Drop)]
pub struct RbWalks {
    pub number: u32,
    pub side: u32,
    pub offset: u64,
    pub tail_at: u64,
    pub tail_len: u64,
    pub reference_only: u64,
    pub switch_only: u64,
    pub differing: u64,
}

// A number of the C interface.
const LIST_LONG: u32 = 25;

// A refusal hands back an empty tail of the walk at fault.
fn numbered(number: u32, side: Side, offset: usize) -> RbWalks
    ensures { (list : List ℕ) → returned result list ≡ refused_with number (side_number side) offset list }
{
    RbWalks {
        number,
        side: u32::from(side),
        offset: offset as u64,
        tail_at: 0,
        tail_len: 0,
        reference_only: 0,
        switch_only: 0,
        differing: 0,
    }
}

fn refused(e: NotCompared) -> RbWalks
    ensures { (list : List ℕ) → returned result list ≡ outcome_of (Err e) list }
{
    match e {
        NotCompared::Walk(side, refusal) => numbered(u32::from(refusal.reason), side, refusal.at),
        NotCompared::ListLong => numbered(LIST_LONG, Side::Reference, 0),
    }
}

// Compares the reference's walk with the device's, lists what differs, and tells where the tail of the walk that outlasts the other is.
pub fn rb_compare_walks<'a>(reference: &'a [u8], device: &'a [u8], list: &mut [u8]) -> RbWalks
    ensures { returned result list.new ≡ compared reference.now device.now list.old }
{
    match compare_walks(reference, device, list) {
        Ok(c) => {
            let tail = unread_tail(reference, device, c);
            RbWalks {
                number: 0,
                side: u32::from(c.side),
                offset: 0,
                tail_at: c.from as u64,
                tail_len: tail.len() as u64,
                reference_only: c.totals.reference as u64,
                switch_only: c.totals.device as u64,
                differing: c.totals.differing as u64,
            }
        }
        Err(e) => refused(e),
    }
}
