// Room in the growing tables for the absent rows that the messages name.
ghost use Rattle.std.specs.Prelude.{◌≡◌, true, cond, ◌∷◌, map, ◌+◌, ◌≤◌, length};
ghost use Rattle.block.specs.Image.{content_of};
ghost use Rattle.block.specs.Valid.{legal};
ghost use Rattle.block.specs.Tables.{rows_of};
ghost use Rattle.answer.specs.Tables.{first_column};
ghost use Rattle.answer.specs.Terms.{absent};
ghost use Rattle.batch.specs.Names.{keys_at};
ghost use Rattle.batch.specs.Found.{meant, table_at, SetsFrom, named_from, rows_counted, short_counted, first_counted};

use super::frames::{groups_at, message_at};
use super::groups::{NamedGroup, is_among};
use block::tables::{Table, row_count, standing_of};
use instances::has_row;
use names::model::Model;
use names::places::{PAIR_LOW_PORT, STATIC_ADDRESS, VLAN_NAME};

// The place of a table's first column.
fn first_column(t: Table) -> usize
    ensures { result ≡ first_column t }
{
    match t {
        Table::Vlan => VLAN_NAME,
        Table::Static => STATIC_ADDRESS,
        Table::Pair => PAIR_LOW_PORT,
    }
}

// Whether a binding names an absent row of a table that no binding behind it names.
fn is_new(block: &[u8], t: Table, named: Option<NamedGroup>, behind: &[Option<NamedGroup>]) -> bool
    requires { legal block.now ≡ true }
    ensures { absent (rows_of t (content_of block.now)) (keys_at (first_column t) (meant named ∷ map meant behind.now)) ≡ cond result 1 0 + absent (rows_of t (content_of block.now)) (keys_at (first_column t) (map meant behind.now)) }
{
    match named {
        None => false,
        Some(row) => {
            let column = first_column(t);
            if row.table != column {
                return false;
            }
            if is_among(named, behind) {
                return false;
            }
            !has_row(block, t, row.key)
        }
    }
}

// How many absent rows of a table a message names, each once.
fn absent_in(block: &[u8], t: Table, of: &[Option<NamedGroup>]) -> usize
    requires { legal block.now ≡ true }
    ensures { (result ≡ absent (rows_of t (content_of block.now)) (keys_at (first_column t) (map meant of.now))) × (result ≤ length of.now) }
{
    let mut n: usize = 0;
    for (i, named) in of.iter().enumerate() {
        if is_new(block, t, *named, &of[i + 1..]) {
            n += 1;
        }
    }
    n
}

// The rows of a table and the absent ones that the messages name, message by message.
fn needed(block: &[u8], t: Table, model: Model, batch: &[u8]) -> usize
    requires { (legal block.now ≡ true) × (model.ports ≤ 64) × SetsFrom batch.now 0 1 }
    ensures { result ≡ rows_counted t (content_of block.now) (named_from model batch.now 0 1) }
{
    let mut n = row_count(block, t);
    let mut at: usize = 0;
    while at < batch.len() {
        let s = message_at(batch, at);
        let groups = groups_at(model, batch, s);
        n += absent_in(block, t, groups.named());
        at = s.start + s.len;
    }
    n
}

// Whether a table has not room for all absent rows that the messages name.
fn is_short(block: &[u8], t: Table, model: Model, batch: &[u8]) -> bool
    requires { (legal block.now ≡ true) × (model.ports ≤ 64) × SetsFrom batch.now 0 1 }
    ensures { result ≡ short_counted t (content_of block.now) (named_from model batch.now 0 1) }
{
    let at = standing_of(t);
    at.most < needed(block, t, model, batch)
}

// The first table without room for all absent rows that the messages name.
pub fn first_short(block: &[u8], model: Model, batch: &[u8]) -> Option<Table>
    requires { (legal block.now ≡ true) × (model.ports ≤ 64) × SetsFrom batch.now 0 1 }
    ensures { table_at result ≡ first_counted (content_of block.now) (named_from model batch.now 0 1) }
{
    if is_short(block, Table::Vlan, model, batch) {
        return Some(Table::Vlan);
    }
    if is_short(block, Table::Static, model, batch) {
        return Some(Table::Static);
    }
    if is_short(block, Table::Pair, model, batch) {
        return Some(Table::Pair);
    }
    None
}
