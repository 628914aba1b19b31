// Changes of a block in place. Each is an equation of contents: from the image of a content to the image of the changed one.
#![tactic(auto)]

pub mod setup;

ghost use Rattle.std.specs.Prelude.{◌≡◌, ◌<◌, ◌≤◌, ◌^◌, length};
ghost use Rattle.octets.specs.Numbers.{be_at, be_octets};
ghost use Rattle.octets.specs.Parts.{patch};
ghost use Rattle.block.specs.Layout.{block_size, many_cells, most_rows, most_pairs, at_vlan_total};
ghost use Rattle.block.specs.Content.{Content, WellFormed, cell_put, deletes_more};
ghost use Rattle.block.specs.Lookup.{exchanged};
ghost use Rattle.block.specs.Rows.{RoomFor, HasRow, row_opened, row_closed};
ghost use Rattle.block.specs.Image.{image, content_of};
ghost use Rattle.block.specs.declared.tables.Table.TheVariants.{Vlan as vlan, Static as static, Pair as pair};
ghost use Rattle.block.specs.Tables.{rows_of, most, row_in, row_put, row_out, uncounted, counted};

use block::layout::{AT_CELLS, AT_DELETES, AT_VLAN_TOTAL};
use block::reads::{deletes, vlan_status};
use block::rows::{PairRow, Row, StaticRow, VlanRow, one_if_active};
use block::tables::{Standing, Table, standing_of};
use octets::gaps::{close_gap, open_gap};
use octets::numbers::{be, be4, put};

// Cell k is written.
pub fn put_cell(block: &mut [u8], k: usize, v: u32)
    requires { (length block.old ≡ block_size) × (k < many_cells) }
    ensures { (c : Content) → WellFormed c → block.old ≡ image c → block.new ≡ image (cell_put c k v) }
{
    put(block, AT_CELLS + 4 * k, 4, v as u64);
}

// VlanNumDeletes grows by n, modulo 2^32.
pub fn add_deletes(block: &mut [u8], n: u32)
    requires { length block.old ≡ block_size }
    ensures { (c : Content) → WellFormed c → block.old ≡ image c → block.new ≡ image (deletes_more c n) }
{
    let d = deletes(block) as u64;
    put(block, AT_DELETES, 4, d + n as u64);
}

// Room for a row is made at place i of a table.
fn open_row(block: &mut [u8], at: Standing, i: usize)
    requires { RoomFor block.old at.count at.rows at.width i }
    ensures { block.new ≡ row_opened block.old at.count at.rows at.width i }
{
    let n = be4(block, at.count) as usize;
    open_gap(
        block,
        at.rows + i * at.width,
        at.rows + n * at.width,
        at.width,
    );
    put(block, at.count, 4, (n + 1) as u64);
}

// The row at place i of a table is taken out.
fn close_row(block: &mut [u8], at: Standing, i: usize)
    requires { HasRow block.old at.count at.rows at.width i }
    ensures { block.new ≡ row_closed block.old at.count at.rows at.width i }
{
    let n = be4(block, at.count) as usize;
    close_gap(
        block,
        at.rows + i * at.width,
        at.rows + n * at.width,
        at.width,
    );
    put(block, at.count, 4, (n - 1) as u64);
}

// How many VLAN rows are active when a row of one status becomes one of another. In a block that is not legal there may be fewer than go.
fn active_after(total: u64, was: u8, becomes: u8) -> u64
    requires { total < 256 ^ 2 }
    ensures { result ≡ exchanged total was becomes }
{
    (total + one_if_active(becomes)).saturating_sub(one_if_active(was))
}

// The stored number of active VLAN rows, when a row of one status becomes one of another; a row that is not there has the status 0.
fn exchange_status(block: &mut [u8], was: u8, becomes: u8)
    requires { length block.old ≡ block_size }
    ensures { block.new ≡ patch block.old at_vlan_total (be_octets 2 (exchanged (be_at block.old at_vlan_total 2) was becomes)) }
{
    let total = be(block, AT_VLAN_TOTAL, 2);
    put(block, AT_VLAN_TOTAL, 2, active_after(total, was, becomes));
}

// A row of a table, with what a block keeps of the table beside its rows: of the VLAN table the number of active ones.
pub trait Counted: Row {
    // The row, which was not counted there, is.
    fn count(&self, block: &mut [u8])
        requires { length block.old ≡ block_size }
        ensures { block.new ≡ counted Self.table block.old (Self.held self.now) };
}

impl Counted for VlanRow {
    fn count(&self, block: &mut [u8]) {
        exchange_status(block, 0, self.status);
    }
}

impl Counted for StaticRow {
    fn count(&self, _block: &mut [u8]) {}
}

impl Counted for PairRow {
    fn count(&self, _block: &mut [u8]) {}
}

// A row is put in at place i of its table.
pub fn insert_row<R: Counted>(block: &mut [u8], i: usize, key: u64, r: &R)
    requires { (length block.old ≡ block_size) × (length (rows_of R.table (content_of block.old)) < most R.table) × (i ≤ length (rows_of R.table (content_of block.old))) }
    ensures { (c : Content) → WellFormed c → block.old ≡ image c → block.new ≡ image (row_in R.table c i (key, R.held r.now)) }
{
    let at = standing_of(R::table());
    open_row(block, at, i);
    r.put(block, at.rows + i * at.width, key);
    r.count(block);
}

// The row at place i of its table is written anew.
pub fn change_row<R: Counted>(block: &mut [u8], i: usize, key: u64, r: &R)
    requires { (length block.old ≡ block_size) × (i < most R.table) }
    ensures { (c : Content) → WellFormed c → i < length (rows_of R.table c) → block.old ≡ image c → block.new ≡ image (row_put R.table c i (key, R.held r.now)) }
{
    let t = R::table();
    let at = standing_of(t);
    uncount(block, t, i);
    r.put(block, at.rows + i * at.width, key);
    r.count(block);
}

// A VLAN row is put in at place i.
pub fn insert_vlan(block: &mut [u8], i: usize, key: u64, r: VlanRow)
    requires { (length block.old ≡ block_size) × (length (content_of block.old).vlans < most_rows) × (i ≤ length (content_of block.old).vlans) }
    ensures { (c : Content) → WellFormed c → block.old ≡ image c → block.new ≡ image (row_in vlan c i (key, r)) }
{
    insert_row(block, i, key, &r);
}

// The VLAN row at place i is written anew.
pub fn change_vlan(block: &mut [u8], i: usize, key: u64, r: VlanRow)
    requires { (length block.old ≡ block_size) × (i < most_rows) }
    ensures { (c : Content) → WellFormed c → i < length c.vlans → block.old ≡ image c → block.new ≡ image (row_put vlan c i (key, r)) }
{
    change_row(block, i, key, &r);
}

// A static row is put in at place i.
pub fn insert_static(block: &mut [u8], i: usize, key: u64, r: StaticRow)
    requires { (length block.old ≡ block_size) × (length (content_of block.old).statics < most_rows) × (i ≤ length (content_of block.old).statics) }
    ensures { (c : Content) → WellFormed c → block.old ≡ image c → block.new ≡ image (row_in static c i (key, r)) }
{
    insert_row(block, i, key, &r);
}

// The static row at place i is written anew.
pub fn change_static(block: &mut [u8], i: usize, key: u64, r: StaticRow)
    requires { (length block.old ≡ block_size) × (i < most_rows) }
    ensures { (c : Content) → WellFormed c → i < length c.statics → block.old ≡ image c → block.new ≡ image (row_put static c i (key, r)) }
{
    change_row(block, i, key, &r);
}

// A pair row is put in at place i.
pub fn insert_pair(block: &mut [u8], i: usize, key: u64, r: PairRow)
    requires { (length block.old ≡ block_size) × (length (content_of block.old).pairs < most_pairs) × (i ≤ length (content_of block.old).pairs) }
    ensures { (c : Content) → WellFormed c → block.old ≡ image c → block.new ≡ image (row_in pair c i (key, r)) }
{
    insert_row(block, i, key, &r);
}

// The pair row at place i is written anew.
pub fn change_pair(block: &mut [u8], i: usize, key: u64, r: PairRow)
    requires { (length block.old ≡ block_size) × (i < most_pairs) }
    ensures { (c : Content) → WellFormed c → i < length c.pairs → block.old ≡ image c → block.new ≡ image (row_put pair c i (key, r)) }
{
    change_row(block, i, key, &r);
}

// The row at place i is no longer counted in what the block keeps of a table beside its rows: of the VLAN table the number of active ones.
fn uncount(block: &mut [u8], t: Table, i: usize)
    requires { (length block.old ≡ block_size) × (i < most t) }
    ensures { block.new ≡ uncounted t block.old i }
{
    match t {
        Table::Vlan => {
            let was = vlan_status(block, i);
            exchange_status(block, was, 0);
        }
        Table::Static => {}
        Table::Pair => {}
    }
}

// The row at place i of a table is taken out.
pub fn remove_row(block: &mut [u8], t: Table, i: usize)
    requires { (length block.old ≡ block_size) × (length (rows_of t (content_of block.old)) ≤ most t) × (i < length (rows_of t (content_of block.old))) }
    ensures { (c : Content) → WellFormed c → block.old ≡ image c → block.new ≡ image (row_out t c i) }
{
    let at = standing_of(t);
    uncount(block, t, i);
    close_row(block, at, i);
}
