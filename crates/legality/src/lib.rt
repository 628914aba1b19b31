// Whether a block is legal: the image of a valid content.
#![tactic(auto)]

ghost use Rattle.std.specs.Prelude.{◌≡◌, ℕ, Bool, true, ◌&&◌, ◌+◌, ◌%◌, ◌^◌, ◌≤◌, ◌<◌, ltb, length, get_or, take, drop};
ghost use Rattle.names.specs.Index.{can_have, index};
ghost use Rattle.names.specs.Table.{objects};
ghost use Rattle.names.specs.Rule.{in_range, in_steps, in_frames, takes};
ghost use Rattle.names.specs.declared.Shape.{Shape};
ghost use Rattle.block.specs.Layout.{block_size, many_cells};
ghost use Rattle.block.specs.Cells.{cells_of};
ghost use Rattle.block.specs.Image.{content_of, vlan_at};
ghost use Rattle.block.specs.Lookup.{Sized};
ghost use Rattle.block.specs.Valid.{every, column_ok, cells_ok, together, timers_hold, port_set, name_ok, vlan_ok, static_ok, pair_ok, rows_ok, legal};
ghost use Rattle.block.specs.Tests.{is_small, static_status, row_ok, ascends, unused_zero, vlans_ok, tables_ok, parts_ok};
ghost use Rattle.block.specs.Tables.{deletes_room};

use block::cells::{cells_of, live_in};
use block::layout::{
    AT_CELLS, AT_FREE_HEAD, AT_PAIRS, AT_STATICS, AT_VLAN_TOTAL, AT_VLANS, BLOCK_SIZE, FREE_HEAD,
    STATIC_PORT_AT, STATIC_WIDTH, VLAN_EGRESS_AT, VLAN_FORBIDDEN_AT, VLAN_NAME_AT,
    VLAN_NAME_LEN_AT, VLAN_STATUS_AT, VLAN_UNTAGGED_AT, VLAN_WIDTH,
};
use block::model::is_model;
use block::reads::{cell, deletes, entry, model, timer, vlan_status};
use block::rows::{PairRow, StaticRow, one_if_active};
use block::tables::{Table, end_of, fits_in, row_count, row_key};
use names::device::TRANSPARENT;
use names::model::Model;
use names::places::{BRIDGE_FORWARD_DELAY, BRIDGE_HELLO_TIME, BRIDGE_MAX_AGE};
use names::rule::{is_frame, step_in};
use names::table::{OBJECT_COUNT, ObjectType, object};
use octets::numbers::{be, be8};
use octets::parts::all_zero;
use octets::ports::{are_disjoint, only_to};

// The bits that are 0 in two cells of 0 to 7.
const ABOVE_SEVEN: u64 = 0xfffffff8fffffff8;

// Whether cell k and the next one hold 0 to 7.
fn two_small(block: &[u8], k: usize) -> bool
    requires { (length block.now ≡ block_size) × (k + 2 ≤ many_cells) }
    ensures { result ≡ (is_small (get_or (content_of block.now).cells k 0) && is_small (get_or (content_of block.now).cells (k + 1) 0)) }
{
    be8(block, AT_CELLS + k * 4) & ABOVE_SEVEN == 0
}

// Whether m cells from cell k on hold 0 to 7, two at a time: the priority maps are most of a block's cells.
fn small_cells(block: &[u8], k: usize, m: usize) -> bool
    requires { (length block.now ≡ block_size) × (k + m ≤ many_cells) × (m % 2 ≡ 0) }
    ensures { result ≡ every is_small (take m (drop k (content_of block.now).cells)) }
{
    for i in 0..m / 2 {
        if !two_small(block, k + 2 * i) {
            return false;
        }
    }
    true
}

// Whether a test holds of m cells from cell k on.
fn cells_all<F: Fn(u32) -> bool>(block: &[u8], k: usize, m: usize, test: F) -> bool
    requires cells { (length block.now ≡ block_size) × (k + m ≤ many_cells) }
    requires callable { F.IsAlwaysCallable test }
    ensures { (t : ℕ → Bool) → ((v : ℕ) (r : Bool) → v < 2 ^ 32 → F.post test v r → r ≡ t v) → result ≡ every t (take m (drop k (content_of block.now).cells)) }
{
    for i in 0..m {
        if !test(cell(block, k + i)) {
            return false;
        }
    }
    true
}

// Whether m cells from cell k on are in a range.
fn cells_within(block: &[u8], k: usize, m: usize, o: ObjectType) -> bool
    requires { (length block.now ≡ block_size) × (k + m ≤ many_cells) }
    ensures { result ≡ every (in_range o) (take m (drop k (content_of block.now).cells)) }
{
    let low = o.low;
    let high = o.high;
    if (low == 0) & (high == 7) & (m % 2 == 0) {
        return small_cells(block, k, m);
    }
    cells_all(block, k, m, |v| (low <= v) & (v <= high))
}

// Whether m cells from cell k on are multiples of a step.
fn cells_stepped(block: &[u8], k: usize, m: usize, step: u32) -> bool
    requires { (length block.now ≡ block_size) × (k + m ≤ many_cells) × (0 < step) }
    ensures { result ≡ every (in_steps step) (take m (drop k (content_of block.now).cells)) }
{
    if step == 1 {
        return true;
    }
    cells_all(block, k, m, |v| v % step == 0)
}

// Whether m cells from cell k on are largest frames, where those are all that an object takes.
fn cells_framed(block: &[u8], k: usize, m: usize, o: ObjectType) -> bool
    requires { (length block.now ≡ block_size) × (k + m ≤ many_cells) }
    ensures { result ≡ every (in_frames o) (take m (drop k (content_of block.now).cells)) }
{
    if !o.frames {
        return true;
    }
    cells_all(block, k, m, |v| is_frame(v))
}

// Whether an object type takes m cells from cell k on in an edition.
#[tactic(auto, using(crate::proofs::LegalLaws::takes_tests))]
fn cells_taken(block: &[u8], k: usize, m: usize, edition: u32, o: ObjectType) -> bool
    requires { (length block.now ≡ block_size) × (k + m ≤ many_cells) × (0 < o.step) }
    ensures { result ≡ every (takes edition o) (take m (drop k (content_of block.now).cells)) }
{
    cells_within(block, k, m, o)
        && cells_stepped(block, k, m, step_in(edition, o))
        && cells_framed(block, k, m, o)
}

// Whether the cells of an object type, from cell k on, are as they must be.
fn column_ok(block: &[u8], m: Model, o: ObjectType, k: usize) -> bool
    requires { (length block.now ≡ block_size) × (m.ports ≤ 64) × (0 < o.step) × (k + cells_of o ≤ many_cells) }
    ensures { result ≡ column_ok m o (take (cells_of o) (drop k (content_of block.now).cells)) }
{
    let total = cells_of(o);
    if total == 0 {
        return true;
    }
    let live = live_in(m, o);
    if !cells_taken(block, k, live, m.edition, o) {
        return false;
    }
    all_zero(block, AT_CELLS + (k + live) * 4, (total - live) * 4)
}

// Whether every object's cells are as they must be.
fn cells_ok(block: &[u8], m: Model) -> bool
    requires { (length block.now ≡ block_size) × (m.ports ≤ 64) }
    ensures { result ≡ cells_ok m objects (content_of block.now).cells }
{
    let mut ok = true;
    let mut k = 0;
    for i in 0..OBJECT_COUNT {
        let o = object(i);
        ok &= column_ok(block, m, o, k);
        k += cells_of(o);
    }
    ok
}

// A second, in hundredths.
const SECOND: u64 = 100;

// Whether three timers, in hundredths, belong together: twice ForwardDelay is at least MaxAge and two seconds, and MaxAge at least twice HelloTime and two seconds.
pub fn belong_together(age: u32, hello: u32, delay: u32) -> bool
    ensures { result ≡ together age hello delay }
{
    (age as u64 + 2 * SECOND <= 2 * (delay as u64)) & (2 * (hello as u64 + SECOND) <= age as u64)
}

// Whether the block's timers belong together, where its device has timers.
fn timers_ok(block: &[u8], device: u32) -> bool
    requires { length block.now ≡ block_size }
    ensures { result ≡ timers_hold device (content_of block.now).cells }
{
    if device != TRANSPARENT {
        return true;
    }
    let age = timer(block, BRIDGE_MAX_AGE);
    let hello = timer(block, BRIDGE_HELLO_TIME);
    let delay = timer(block, BRIDGE_FORWARD_DELAY);
    belong_together(age, hello, delay)
}

// Whether the VLAN row whose octets start at index at is as it must be. Its sets are read behind the test of the name: compiled code reads eight octets at once only where nothing stands between.
fn vlan_ok(block: &[u8], m: Model, at: usize) -> bool
    requires { (1 ≤ m.ports) × (m.ports ≤ 64) × (at + 60 ≤ length block.now) }
    ensures { result ≡ vlan_ok m (vlan_at block.now at).1 }
{
    let from = at + VLAN_NAME_AT;
    let end = at + VLAN_EGRESS_AT;
    if !name_ok(&block[from..end], block[at + VLAN_NAME_LEN_AT] as usize) {
        return false;
    }
    let status = block[at + VLAN_STATUS_AT];
    let egress = be8(block, at + VLAN_EGRESS_AT);
    let forbidden = be8(block, at + VLAN_FORBIDDEN_AT);
    let untagged = be8(block, at + VLAN_UNTAGGED_AT);
    ((status == 1) | (status == 2))
        & (sets_ok(m, egress, forbidden, untagged) & are_disjoint(egress, forbidden))
}

// Whether 32 octets are a name of len octets, with zeros behind it.
fn name_ok(name: &[u8], len: usize) -> bool
    requires { length name.now ≡ 32 }
    ensures { result ≡ name_ok len name.now }
{
    if 32 < len {
        return false;
    }
    all_zero(name, len, 32 - len)
}

// Whether three sets have only ports 1 to N of a model.
fn sets_ok(m: Model, a: u64, b: u64, c: u64) -> bool
    requires { (1 ≤ m.ports) × (m.ports ≤ 64) }
    ensures { result ≡ (port_set m a && (port_set m b && port_set m c)) }
{
    only_to(m.ports, a) & (only_to(m.ports, b) & only_to(m.ports, c))
}

// Whether the VLAN rows are as they must be: ascending, each with an id that there is, and as many active ones as the block says.
fn vlans_ok(block: &[u8], m: Model) -> bool
    requires { Sized block.now × (1 ≤ m.ports) × (m.ports ≤ 64) }
    ensures { result ≡ vlans_ok m block.now }
{
    let count = row_count(block, Table::Vlan);
    let mut low: u64 = 0;
    let mut active: u64 = 0;
    for i in 0..count {
        let key = row_key(block, Table::Vlan, i);
        let fits = (low <= key)
            & ((1 <= key) & (key <= 4094))
            & vlan_ok(block, m, AT_VLANS + i * VLAN_WIDTH);
        if !fits {
            return false;
        }
        active += one_if_active(vlan_status(block, i));
        low = key + 1;
    }
    active == be(block, AT_VLAN_TOTAL, 2)
}

// How far two statuses of static rows are apart at most: they are 3 to 5.
const STATUSES_APART: u64 = 2;

fn static_ok(m: Model, r: StaticRow) -> bool
    requires { (1 ≤ m.ports) × (m.ports ≤ 64) }
    ensures { result ≡ static_ok m r }
{
    (3 <= r.status) & (r.status <= 5) & only_to(m.ports, r.allowed)
}

// Whether each static row by itself is as it must be, with a receive port of 0 to N.
fn static_rows_ok(block: &[u8], m: Model) -> bool
    requires { Sized block.now × (1 ≤ m.ports) × (m.ports ≤ 64) }
    ensures { result ≡ every (row_ok m Shape.Static (static_ok m)) (content_of block.now).statics }
{
    let count = row_count(block, Table::Static);
    for i in 0..count {
        let port = block[AT_STATICS + i * STATIC_WIDTH + STATIC_PORT_AT];
        let fits = (port as u32 <= m.ports) & static_ok(m, entry(block, i));
        if !fits {
            return false;
        }
    }
    true
}

// Whether the keys of static rows with statuses of 3 to 5 ascend. A key and the status behind it are compared as one number: compiled code reads eight octets at once, and seven one by one.
fn statics_ascend(block: &[u8]) -> bool
    requires { Sized block.now × (every static_status (content_of block.now).statics ≡ true) }
    ensures { result ≡ ascends 0 (content_of block.now).statics }
{
    let count = row_count(block, Table::Static);
    let mut before: u64 = 0;
    for i in 0..count {
        let word = be8(block, AT_STATICS + i * STATIC_WIDTH);
        if word <= before + STATUSES_APART {
            return false;
        }
        before = word;
    }
    true
}

// Whether the static rows are as they must be: each by itself, and ascending.
#[tactic(auto, using(crate::proofs::AscendLaws::rows_passes, crate::proofs::AscendLaws::rows_status))]
fn statics_ok(block: &[u8], m: Model) -> bool
    requires { Sized block.now × (1 ≤ m.ports) × (m.ports ≤ 64) }
    ensures { result ≡ rows_ok m Shape.Static (static_ok m) 0 (content_of block.now).statics }
{
    static_rows_ok(block, m) && statics_ascend(block)
}

fn pair_ok(r: PairRow) -> bool
    ensures { result ≡ pair_ok r }
{
    (r.number <= 15) & ((r.state == 1) | (r.state == 2))
}

// Whether the pair rows are as they must be: ascending, each of two ports, the first below the second.
fn pairs_ok(block: &[u8], m: Model) -> bool
    requires { Sized block.now × (m.ports ≤ 64) }
    ensures { result ≡ rows_ok m Shape.Pair pair_ok 0 (content_of block.now).pairs }
{
    let count = row_count(block, Table::Pair);
    let mut low: u64 = 0;
    for i in 0..count {
        let key = row_key(block, Table::Pair, i);
        let fits = (low <= key) & is_pair(m, key) & pair_ok(entry(block, i));
        if !fits {
            return false;
        }
        low = key + 1;
    }
    true
}

// Whether a key is one of two ports of a model, the first below the second.
fn is_pair(m: Model, key: u64) -> bool
    ensures { result ≡ can_have m Shape.Pair (index Shape.Pair key) }
{
    let low = key / 256;
    let high = key % 256;
    (1 <= low) & (low < high) & (high <= m.ports as u64)
}

// Whether VlanNumDeletes is one of the device's: 0 where the device has none.
fn deletes_ok(block: &[u8], device: u32) -> bool
    requires { length block.now ≡ block_size }
    ensures { result ≡ ltb (content_of block.now).deletes (deletes_room device) }
{
    (device == TRANSPARENT) | (deletes(block) == 0)
}

// Whether every octet that the content does not use is 0.
fn unused_is_zero(block: &[u8]) -> bool
    requires { Sized block.now }
    ensures { result ≡ unused_zero block.now }
{
    let v = end_of(block, Table::Vlan);
    let s = end_of(block, Table::Static);
    let p = end_of(block, Table::Pair);
    let behind = all_zero(block, s, AT_PAIRS - s) & all_zero(block, p, BLOCK_SIZE - p);
    all_zero(block, AT_FREE_HEAD, FREE_HEAD) & (all_zero(block, v, AT_STATICS - v) & behind)
}

// Whether the block is legal.
pub fn is_legal(block: &[u8]) -> bool
    ensures { result ≡ legal block.now }
{
    if block.len() != BLOCK_SIZE {
        return false;
    }
    let m = model(block);
    if !is_model(m) {
        return false;
    }
    let device = m.device;
    let roomy = fits_in(block, device, Table::Vlan)
        & fits_in(block, device, Table::Static)
        & fits_in(block, device, Table::Pair);
    if !roomy {
        return false;
    }
    contents_ok(block, m)
}

// Whether the rows of all tables are as they must be.
#[tactic(auto, unfolding(block::specs::Tests::tables_ok))]
fn tables_ok(block: &[u8], m: Model) -> bool
    requires { Sized block.now × (1 ≤ m.ports) × (m.ports ≤ 64) }
    ensures { result ≡ tables_ok m block.now }
{
    vlans_ok(block, m) && statics_ok(block, m) && pairs_ok(block, m)
}

// Whether the parts of a block are as they must be.
#[tactic(auto, unfolding(block::specs::Tests::parts_ok))]
fn contents_ok(block: &[u8], m: Model) -> bool
    requires { Sized block.now × (1 ≤ m.ports) × (m.ports ≤ 64) }
    ensures { result ≡ parts_ok m block.now }
{
    unused_is_zero(block)
        && deletes_ok(block, m.device)
        && cells_ok(block, m)
        && timers_ok(block, m.device)
        && tables_ok(block, m)
}
