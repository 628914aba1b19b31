// Set-up: the whole block is written.
ghost use Rattle.std.specs.Prelude.{◌≡◌, cond, [], ◌≤◌, ◌<◌, ltb, length};
ghost use Rattle.octets.specs.Parts.{patch};
ghost use Rattle.names.specs.Table.{object_at, object_count};
ghost use Rattle.names.specs.Fresh.{fresh_of, fresh_value};
ghost use Rattle.block.specs.Layout.{block_size};
ghost use Rattle.block.specs.Content.{Content, WellFormed, with_cells, with_vlans};
ghost use Rattle.block.specs.Image.{image, content_of};
ghost use Rattle.block.specs.Cells.{first_cell};
ghost use Rattle.block.specs.Fresh.{fresh_column, fresh_cells, fresh_vlan, fresh_vlans, fresh, set_up_takes, after_set_up};
ghost use Rattle.changes.specs.SetUp.{set_up_number};

use super::{insert_row, put_cell};
use block::cells::{cells_of, first_cell, live_in};
use block::layout::{AT_ADDRESS, AT_DEVICE, AT_EDITION, AT_PORTS, BLOCK_SIZE};
use block::model::is_model;
use block::rows::VlanRow;
use names::device::TRANSPARENT;
use names::fresh::fresh_value;
use names::model::Model;
use names::table::{OBJECT_COUNT, object};
use octets::numbers::put;
use octets::parts::{clear, copy_in};
use octets::ports::ports_to;

// The block, the model or the address is not as it must be (refusal 9).
#[derive(Clone, Copy, Debug, PartialEq, Eq)]
pub struct SetUpRefused;

// The row of VLAN 1 in a fresh block of a model.
fn fresh_vlan(m: Model) -> VlanRow
    requires { m.ports ≤ 64 }
    ensures { result ≡ fresh_vlan m }
{
    let all = ports_to(m.ports);
    VlanRow {
        status: 1,
        len: 0,
        name: [0u8; 32],
        egress: all,
        forbidden: 0,
        untagged: all,
    }
}

// Set-up with N ports, an edition, a device and an address.
pub fn set_up(block: &mut [u8], m: Model, address: &[u8]) -> Result<(), SetUpRefused>
    ensures { (set_up_number result ≡ cond (set_up_takes block.old m address.now) 0 9) × (block.new ≡ after_set_up block.old m address.now) }
{
    if block.len() != BLOCK_SIZE {
        return Err(SetUpRefused);
    }
    if !is_model(m) {
        return Err(SetUpRefused);
    }
    if address.len() != 6 {
        return Err(SetUpRefused);
    }
    write_fresh(block, m, address);
    Ok(())
}

// Writes a fresh block.
fn write_fresh(block: &mut [u8], m: Model, address: &[u8])
    requires { (length block.old ≡ block_size) × (m.ports ≤ 64) × (length address.now ≡ 6) }
    ensures { block.new ≡ image (fresh m address.now) }
{
    clear(block, 0, BLOCK_SIZE);
    put(block, AT_PORTS, 4, m.ports as u64);
    copy_in(block, AT_ADDRESS, address);
    put(block, AT_EDITION, 1, m.edition as u64);
    put(block, AT_DEVICE, 1, m.device as u64);
    write_fresh_cells(block, m);
    write_fresh_vlans(block, m);
}

// Puts the row of VLAN 1 in a block without VLAN rows, where the device has VLANs.
fn write_fresh_vlans(block: &mut [u8], m: Model)
    requires { (length block.old ≡ block_size) × (length (content_of block.old).vlans ≡ 0) × (m.ports ≤ 64) }
    ensures { (c : Content) → WellFormed c → c.vlans ≡ [] → block.old ≡ image c → block.new ≡ image (with_vlans c (fresh_vlans m)) }
{
    if m.device == TRANSPARENT {
        insert_row(block, 0, 1, &fresh_vlan(m));
    }
}

// Writes every cell of a fresh block: object by object, as the table has them.
fn write_fresh_cells(block: &mut [u8], m: Model)
    requires { (length block.old ≡ block_size) × (m.ports ≤ 64) }
    ensures { (c : Content) → WellFormed c → block.old ≡ image c → block.new ≡ image (with_cells c (fresh_cells m)) }
{
    for i in 0..OBJECT_COUNT {
        write_column(block, m, i);
    }
}

// Writes the cells of the object at place i.
fn write_column(block: &mut [u8], m: Model, i: usize)
    requires { (length block.old ≡ block_size) × (m.ports ≤ 64) × (i < object_count) }
    ensures { (c : Content) → WellFormed c → block.old ≡ image c → block.new ≡ image (with_cells c (patch c.cells (first_cell i) (fresh_column m (object_at i) (fresh_of i)))) }
{
    let o = object(i);
    let live = live_in(m, o);
    let total = cells_of(o);
    let first = first_cell(i);
    for j in 0..total {
        put_cell(block, first + j, fresh_cell(i, live, j));
    }
}

// Cell j of the object at place i, of whose cells so many hold values.
fn fresh_cell(i: usize, live: usize, j: usize) -> u32
    ensures { result ≡ cond (ltb j live) (fresh_value i j) 0 }
{
    if j < live {
        return fresh_value(i, j);
    }
    0
}
