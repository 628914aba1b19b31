// What an instance holds, read from the block.
#![tactic(auto)]

ghost use Rattle.std.specs.Prelude.{◌≡◌, Ok, ℕ, ◌-◌, ◌/◌, ◌%◌, ◌<◌, ◌≤◌, true, [], length, get_or};
ghost use Rattle.octets.specs.Numbers.{be_octets};
ghost use Rattle.octets.specs.Ports.{port_octets};
ghost use Rattle.names.specs.Devices.{type_of};
ghost use Rattle.names.specs.Places.{pair_low_port, pair_bridge_state, static_address, static_state, vlan_name, vlan_row_status};
ghost use Rattle.names.specs.Index.{limit};
ghost use Rattle.names.specs.Table.{object_count, object_at};
ghost use Rattle.names.specs.declared.Shape.TheVariants.{Pair};
ghost use Rattle.names.specs.declared.table.Syntax.TheVariants.{Text};
ghost use Rattle.block.specs.Layout.{block_size};
ghost use Rattle.block.specs.Content.{Content};
ghost use Rattle.block.specs.Cells.{cells_of};
ghost use Rattle.block.specs.Image.{content_of};
ghost use Rattle.block.specs.Lookup.{keys_of, find_key};
ghost use Rattle.block.specs.Tables.{rows_of};
ghost use Rattle.block.specs.Valid.{legal, name_ok};
ghost use Rattle.answer.specs.Values.{keys_on, vlan_of, static_of, pair_of, cell_at, value_of};
ghost use Rattle.answer.specs.Get.{elem};
ghost use Rattle.answer.specs.Judge.{tag_of};
ghost use Rattle.values.specs.Standing.{IsThere, is_fixed};

use block::cells::{cell_of, cells_of};
use block::maps::priority_map;
use block::reads::{
    active_vlans, address, cell, deletes, model, pair_entry, ports, static_entry, vlan,
};
use block::rows::{PairRow, StaticRow, VlanRow};
use block::tables::{Table, find_row};
use message::tags::{COUNTER, INTEGER, STRING, UNSIGNED};
use names::Shape;
use names::device::type_of_device;
use names::places::{
    BRIDGE_ADDRESS, BRIDGE_TYPE, NUM_PORTS, NUM_VLANS, PAIR_BRIDGE_NUM, PAIR_HIGH_PORT,
    PAIR_LOW_PORT, REGEN_USER_PRIORITY, STATIC_ADDRESS, STATIC_ALLOWED, STATIC_RECEIVE_PORT,
    TRAFFIC_CLASS, VLAN_EGRESS, VLAN_FORBIDDEN, VLAN_NAME, VLAN_NUM_DELETES, VLAN_UNTAGGED,
};
use names::table::{Syntax, object};
use names::targets::Instance;
use octets::numbers::put;
use octets::parts::copy_in;
use octets::ports::put_ports;
use std::marker::Model;

// How many octets an address has.
const ADDRESS_SIZE: usize = 6;

// How many octets a number has.
const NUMBER_SIZE: usize = 4;

// The most octets of a value, a VLAN's name.
const MOST_OCTETS: usize = 32;

// A value: a tag and at most 32 octets, which zeros follow. The array has room for the longest value, since the library
// allocates nothing.
#[derive(Drop)]
pub struct Value {
    tag: u8,
    len: usize,
    octets: [u8; MOST_OCTETS],
}

impl Model for Value {
    ghost use Rattle.std.specs.Prelude.{ℕ, ◌≡◌, ◌≤◌, List, take};
    ghost use Rattle.block.specs.Image.{fit_to};

    ghost Value = { ℕ × List ℕ };

    ghost view = { λ v. (v.tag, take v.len v.octets) };

    ghost invariant = { λ v. (v.len ≤ 32) × (v.octets ≡ fit_to 32 (take v.len v.octets)) };
}

impl Value {
    pub fn tag(&self) -> u8
        ensures { result ≡ self.now.0 }
    {
        self.tag
    }

    pub fn octets(&self) -> &[u8]
        ensures { result.now ≡ self.now.1 }
    {
        &self.octets[..self.len]
    }
}

// Octets that stand elsewhere.
fn copied(octets: &[u8]) -> Value
    requires { length octets.now ≤ 32 }
    ensures { result ≡ (0x22, octets.now) }
{
    let mut copy = [0u8; MOST_OCTETS];
    copy_in(&mut copy, 0, octets);
    Value {
        tag: STRING,
        len: octets.len(),
        octets: copy,
    }
}

// A number in so many octets.
fn written(tag: u8, size: usize, v: u64) -> Value
    requires { size ≤ 32 }
    ensures { result ≡ (tag, be_octets size v) }
{
    let mut octets = [0u8; MOST_OCTETS];
    put(&mut octets, 0, size, v);
    Value {
        tag: tag,
        len: size,
        octets: octets,
    }
}

// A number in four octets.
fn number(tag: u8, v: u32) -> Value
    ensures { result ≡ (tag, be_octets 4 v) }
{
    written(tag, NUMBER_SIZE, v as u64)
}

// A bridge with n ports shows a port set in (n + 7) / 8 octets.
fn port_set(n: u32, set: u64) -> Value
    requires { (1 ≤ n) × (n ≤ 64) }
    ensures { result ≡ (0x22, port_octets n set) }
{
    let ports = n as usize;
    let mut octets = [0u8; MOST_OCTETS];
    put_ports(&mut octets, 0, ports, set);
    Value {
        tag: STRING,
        len: (ports + 7) / 8,
        octets: octets,
    }
}

// Type.
fn bridge_type(block: &[u8]) -> u32
    requires { length block.now ≡ block_size }
    ensures { result ≡ type_of (content_of block.now).device }
{
    let m = model(block);
    type_of_device(m.device)
}

// The tag of an object type's values.
pub fn tag_of(syntax: Syntax) -> u8
    ensures { result ≡ tag_of syntax }
{
    match syntax {
        Syntax::Integer => INTEGER,
        Syntax::Text | Syntax::Ports => STRING,
        Syntax::Unsigned => UNSIGNED,
        Syntax::Counter => COUNTER,
    }
}

// A priority of a map: the key has the port before the priority, which is its last digit to the base 8.
fn in_map(map: [[u8; 8]; 64], key: u64) -> u8
    requires { (8 ≤ key) × (key < 520) }
    ensures { result ≡ get_or (get_or map (key / 8 - 1) []) (key % 8) 0 }
{
    let p = (key / 8 - 1) as usize;
    let u = (key % 8) as usize;
    let row = map[p];
    row[u]
}

// The number in the cell of the instance.
fn cell_value(block: &[u8], x: Instance) -> u32
    requires { (legal block.now ≡ true) × IsThere (content_of block.now) x × (1 ≤ cells_of (object_at x.place)) }
    ensures { result ≡ cell_at x.place (content_of block.now) x.key }
{
    if (x.place == REGEN_USER_PRIORITY) | (x.place == TRAFFIC_CLASS) {
        return in_map(priority_map(block, x.place), x.key) as u32;
    }
    cell(block, cell_of(x.place, x.key))
}

// A read-only object outside the growing tables. Where its range is one number, that is its value; the others are a port's own number.
fn read_only(block: &[u8], x: Instance) -> Value
    requires { (legal block.now ≡ true) × IsThere (content_of block.now) x × (cells_of (object_at x.place) ≡ 0) × (is_fixed (object_at x.place).shape ≡ true) }
    ensures { result ≡ value_of (content_of block.now) x.place x.key }
{
    let o = object(x.place);
    let low = o.low;
    let high = o.high;
    match x.place {
        BRIDGE_ADDRESS => copied(&address(block)),
        NUM_PORTS => number(INTEGER, ports(block)),
        BRIDGE_TYPE => number(INTEGER, bridge_type(block)),
        NUM_VLANS => number(UNSIGNED, active_vlans(block)),
        VLAN_NUM_DELETES => number(COUNTER, deletes(block)),
        _ => {
            if low == high {
                let syntax = o.syntax;
                return number(tag_of(syntax), low);
            }
            number(INTEGER, x.key as u32)
        }
    }
}

// A column of a VLAN row on a bridge with n ports.
fn vlan_column(n: u32, i: usize, row: &VlanRow) -> Value
    requires { (1 ≤ n) × (n ≤ 64) × (vlan_name ≤ i) × (i ≤ vlan_row_status) × (name_ok row.now.len row.now.name ≡ true) }
    ensures { (c : Content) (k : ℕ) → c.ports ≡ n → vlan_of c k ≡ row.now → result ≡ value_of c i k }
{
    match i {
        VLAN_NAME => copied(&row.name[..row.len as usize]),
        VLAN_EGRESS => port_set(n, row.egress),
        VLAN_FORBIDDEN => port_set(n, row.forbidden),
        VLAN_UNTAGGED => port_set(n, row.untagged),
        _ => number(INTEGER, row.status as u32),
    }
}

// A column of a static row on a bridge with n ports: the key is the address and the receive port.
fn static_column(n: u32, i: usize, key: u64, row: StaticRow) -> Value
    requires { (1 ≤ n) × (n ≤ 64) × (static_address ≤ i) × (i ≤ static_state) }
    ensures { (c : Content) → c.ports ≡ n → static_of c key ≡ row → result ≡ value_of c i key }
{
    match i {
        STATIC_ADDRESS => written(STRING, ADDRESS_SIZE, key / 256),
        STATIC_RECEIVE_PORT => number(INTEGER, (key % 256) as u32),
        STATIC_ALLOWED => port_set(n, row.allowed),
        _ => number(INTEGER, row.status as u32),
    }
}

// A column of a pair row: the key is the low port and the high port.
fn pair_column(i: usize, key: u64, row: PairRow) -> Value
    requires { (pair_low_port ≤ i) × (i ≤ pair_bridge_state) × (key < limit Pair) }
    ensures { (c : Content) → pair_of c key ≡ row → result ≡ value_of c i key }
{
    match i {
        PAIR_LOW_PORT => number(INTEGER, (key / 256) as u32),
        PAIR_HIGH_PORT => number(INTEGER, (key % 256) as u32),
        PAIR_BRIDGE_NUM => number(INTEGER, row.number as u32),
        _ => number(INTEGER, row.state as u32),
    }
}

// Where the row that has the key stands.
fn row_place(block: &[u8], t: Table, key: u64) -> usize
    requires { (legal block.now ≡ true) × (elem key (keys_of (rows_of t (content_of block.now))) ≡ true) }
    ensures { find_key key (keys_of (rows_of t (content_of block.now))) ≡ Ok result }
{
    find_row(block, t, key).unwrap()
}

// A column of the VLAN row that has the key.
// One such function for each table: its rows have columns of their own, and a trait of these would be no shorter.
fn vlan_value(block: &[u8], i: usize, key: u64) -> Value
    requires { (legal block.now ≡ true) × (vlan_name ≤ i) × (i ≤ vlan_row_status) × (elem key (keys_of (content_of block.now).vlans) ≡ true) }
    ensures { result ≡ value_of (content_of block.now) i key }
{
    let row = vlan(block, row_place(block, Table::Vlan, key));
    vlan_column(ports(block), i, &row)
}

// A column of the static row that has the key.
fn static_value(block: &[u8], i: usize, key: u64) -> Value
    requires { (legal block.now ≡ true) × (static_address ≤ i) × (i ≤ static_state) × (elem key (keys_of (content_of block.now).statics) ≡ true) }
    ensures { result ≡ value_of (content_of block.now) i key }
{
    let row = static_entry(block, row_place(block, Table::Static, key));
    static_column(ports(block), i, key, row)
}

// A column of the pair row that has the key.
fn pair_value(block: &[u8], i: usize, key: u64) -> Value
    requires { (legal block.now ≡ true) × (pair_low_port ≤ i) × (i ≤ pair_bridge_state) × (elem key (keys_of (content_of block.now).pairs) ≡ true) }
    ensures { result ≡ value_of (content_of block.now) i key }
{
    let row = pair_entry(block, row_place(block, Table::Pair, key));
    pair_column(i, key, row)
}

// What an instance holds.
pub fn value_of(block: &[u8], x: Instance) -> Value
    requires { (legal block.now ≡ true) × IsThere (content_of block.now) x }
    ensures { result ≡ value_of (content_of block.now) x.place x.key }
{
    let o = object(x.place);
    if cells_of(o) != 0 {
        let syntax = o.syntax;
        return number(tag_of(syntax), cell_value(block, x));
    }
    match o.shape {
        Shape::Vlan => vlan_value(block, x.place, x.key),
        Shape::Static => static_value(block, x.place, x.key),
        Shape::Pair => pair_value(block, x.place, x.key),
        Shape::Scalar | Shape::Port | Shape::PortPriority => read_only(block, x),
    }
}

// How many octets the text of an instance has: an address, or a VLAN's name.
fn text_size(block: &[u8], x: Instance) -> usize
    requires { (legal block.now ≡ true) × IsThere (content_of block.now) x × ((object_at x.place).syntax ≡ Text) }
    ensures { result ≡ length (value_of (content_of block.now) x.place x.key).1 }
{
    if x.place != VLAN_NAME {
        return ADDRESS_SIZE;
    }
    let row = vlan(block, row_place(block, Table::Vlan, x.key));
    row.len as usize
}

// How many octets the value of an instance has.
pub fn value_size(block: &[u8], x: Instance) -> usize
    requires { (legal block.now ≡ true) × IsThere (content_of block.now) x }
    ensures { result ≡ length (value_of (content_of block.now) x.place x.key).1 }
{
    match object(x.place).syntax {
        Syntax::Integer | Syntax::Unsigned | Syntax::Counter => NUMBER_SIZE,
        Syntax::Text => text_size(block, x),
        Syntax::Ports => (ports(block) as usize + 7) / 8,
    }
}
