// The columns of the growing tables: whose column an object is, and what a number in a status column does.
ghost use Rattle.std.specs.Prelude.{◌≡◌, ◌||◌, eqb};
ghost use Rattle.answer.specs.Tables.{makes, removes, misplaced};
ghost use Rattle.verdict.specs.Kept.{first_written, status_place, is_column, column_in, status_meant, is_status_of, is_attribute_of};

use super::judge::Kept;
use block::tables::Table;
use names::places::{
    PAIR_BRIDGE_NUM, PAIR_BRIDGE_STATE, STATIC_ALLOWED, STATIC_STATE, VLAN_NAME, VLAN_ROW_STATUS,
};

// The place of a table's status column.
pub fn status_place(t: Table) -> usize
    ensures { result ≡ status_place t }
{
    match t {
        Table::Vlan => VLAN_ROW_STATUS,
        Table::Static => STATIC_STATE,
        Table::Pair => PAIR_BRIDGE_STATE,
    }
}

// The place of a table's first column that is written.
fn first_written(t: Table) -> usize
    ensures { result ≡ first_written t }
{
    match t {
        Table::Vlan => VLAN_NAME,
        Table::Static => STATIC_ALLOWED,
        Table::Pair => PAIR_BRIDGE_NUM,
    }
}

// Whether the object at a place is a column of a table that is written.
fn is_column(t: Table, place: usize) -> bool
    ensures { result ≡ is_column t place }
{
    (first_written(t) <= place) & (place <= status_place(t))
}

// The growing table in whose rows the object at a place has its values; None where it has them in cells.
pub fn column_in(place: usize) -> Option<Table>
    ensures { result ≡ column_in place }
{
    if is_column(Table::Vlan, place) {
        return Some(Table::Vlan);
    }
    if is_column(Table::Static, place) {
        return Some(Table::Static);
    }
    if is_column(Table::Pair, place) {
        return Some(Table::Pair);
    }
    None
}

// Whether a kept binding writes the status column of a table.
pub fn is_status_of(t: Table, q: Kept) -> bool
    ensures { result ≡ is_status_of t q }
{
    q.place as usize == status_place(t)
}

// Whether it writes another column of the table.
pub fn is_attribute_of(t: Table, q: Kept) -> bool
    ensures { result ≡ is_attribute_of t q }
{
    let place = q.place as usize;
    is_column(t, place) & (place != status_place(t))
}

// Whether a number in a table's status column makes an absent row.
pub fn makes_row(t: Table, v: u64) -> bool
    ensures { result ≡ makes t (status_meant t v) }
{
    match t {
        Table::Vlan => (v == 4) | (v == 5),
        Table::Static => v != 2,
        Table::Pair => v != 3,
    }
}

// Whether it sets the state of a VLAN row that is there.
fn states_vlan(v: u64) -> bool
    ensures { result ≡ (eqb v 1 || eqb v 2) }
{
    (v == 1) | (v == 2)
}

// Whether it removes a row.
pub fn removes_row(t: Table, v: u64) -> bool
    ensures { result ≡ removes t (status_meant t v) }
{
    match t {
        Table::Vlan => !(states_vlan(v) | makes_row(t, v)),
        Table::Static => v == 2,
        Table::Pair => v == 3,
    }
}

// Whether it does not go with whether its row is there.
pub fn is_misplaced(t: Table, v: u64, there: bool) -> bool
    ensures { result ≡ misplaced t (status_meant t v) there }
{
    match t {
        Table::Vlan => (makes_row(t, v) & there) | (states_vlan(v) & !there),
        Table::Static => false,
        Table::Pair => false,
    }
}
