// The growing tables: where each stands in a block, and what is done alike with the rows of all of them.
ghost use Rattle.std.specs.Prelude.{◌≡◌, ◌+◌, ◌*◌, ◌<◌, ◌≤◌, leb, ltb, length, get_or};
ghost use Rattle.octets.specs.Numbers.{be_at};
ghost use Rattle.names.specs.Index.{first_from, answered};
ghost use Rattle.block.specs.Layout.{block_size};
ghost use Rattle.block.specs.Rows.{rows_at};
ghost use Rattle.block.specs.Image.{content_of};
ghost use Rattle.block.specs.Lookup.{Sized, find_key, place_in, Ascending, halving, keys_of};
ghost use Rattle.block.specs.Tables.{rows_of, most, standing, device_of, room_in, end_of};

use super::layout::{
    AT_PAIR_COUNT, AT_PAIRS, AT_STATIC_COUNT, AT_STATICS, AT_VLAN_COUNT, AT_VLANS, MOST_PAIRS,
    MOST_ROWS, PAIR_KEY, PAIR_WIDTH, STATIC_KEY, STATIC_WIDTH, VLAN_KEY, VLAN_WIDTH,
};
use names::device::{SOURCE_ROUTING, TRANSPARENT};
use octets::numbers::{be, be4};

#[derive(Clone, Copy, Debug, PartialEq, Eq)]
pub enum Table {
    Vlan,
    Static,
    Pair,
}

// Where a table stands: the offset of its row count and of its first row, how many octets a row and a row's key have, and how many rows there is room for.
#[derive(Clone, Copy, Debug, PartialEq, Eq)]
pub struct Standing {
    pub count: usize,
    pub rows: usize,
    pub width: usize,
    pub key: usize,
    pub most: usize,
}

pub fn standing_of(t: Table) -> Standing
    ensures { result ≡ standing t }
{
    match t {
        Table::Vlan => Standing {
            count: AT_VLAN_COUNT,
            rows: AT_VLANS,
            width: VLAN_WIDTH,
            key: VLAN_KEY,
            most: MOST_ROWS,
        },
        Table::Static => Standing {
            count: AT_STATIC_COUNT,
            rows: AT_STATICS,
            width: STATIC_WIDTH,
            key: STATIC_KEY,
            most: MOST_ROWS,
        },
        Table::Pair => Standing {
            count: AT_PAIR_COUNT,
            rows: AT_PAIRS,
            width: PAIR_WIDTH,
            key: PAIR_KEY,
            most: MOST_PAIRS,
        },
    }
}

// The device that has a table.
fn device_of(t: Table) -> u32
    ensures { result ≡ device_of t }
{
    match t {
        Table::Vlan => TRANSPARENT,
        Table::Static => TRANSPARENT,
        Table::Pair => SOURCE_ROUTING,
    }
}

// How many rows a table has room for on a device.
fn room_in(device: u32, t: Table) -> usize
    ensures { result ≡ room_in device t }
{
    if device == device_of(t) {
        let at = standing_of(t);
        return at.most;
    }
    0
}

// How many rows a table has.
pub fn row_count(block: &[u8], t: Table) -> usize
    requires { length block.now ≡ block_size }
    ensures { result ≡ length (rows_of t (content_of block.now)) }
{
    let at = standing_of(t);
    be4(block, at.count) as usize
}

// Whether a table has no more rows than there is room for on a device.
pub fn fits_in(block: &[u8], device: u32, t: Table) -> bool
    requires { length block.now ≡ block_size }
    ensures { result ≡ leb (length (rows_of t (content_of block.now))) (room_in device t) }
{
    row_count(block, t) <= room_in(device, t)
}

// The index behind a table's last row.
pub fn end_of(block: &[u8], t: Table) -> usize
    requires { Sized block.now }
    ensures { result ≡ end_of t block.now }
{
    let at = standing_of(t);
    at.rows + row_count(block, t) * at.width
}

// Whether there is room for one more row.
pub fn has_room(block: &[u8], t: Table) -> bool
    requires { length block.now ≡ block_size }
    ensures { result ≡ ltb (length (rows_of t (content_of block.now))) (most t) }
{
    let at = standing_of(t);
    row_count(block, t) < at.most
}

// The key of the row at place i.
pub fn row_key(block: &[u8], t: Table, i: usize) -> u64
    requires { Sized block.now × (i < length (rows_of t (content_of block.now))) }
    ensures { result ≡ get_or (keys_of (rows_of t (content_of block.now))) i 0 }
{
    let at = standing_of(t);
    be(block, at.rows + i * at.width, at.key)
}

// Where a key stands among n rows of a table, or where it would be put in, and how many of them it was compared with.
fn find(block: &[u8], at: Standing, n: usize, key: u64) -> (Result<usize, usize>, usize)
    requires { (at.rows + n * at.width ≤ length block.now) × (at.key ≤ at.width) × (at.key ≤ 8) }
    ensures { result ≡ halving key (rows_at (λ b p. be_at b p at.key) at.width block.now at.rows n) }
{
    let mut low = 0;
    let mut high = n;
    let mut compared: usize = 0;
    // A block holds rows as octets, so there is no slice of keys for its binary_search.
    while low < high {
        let middle = low + (high - low) / 2;
        let k = be(block, at.rows + middle * at.width, at.key);
        compared += 1;
        if k == key {
            return (Ok(middle), compared);
        }
        if key < k {
            high = middle;
        } else {
            low = middle + 1;
        }
    }
    (Err(low), compared)
}

// Where a key stands among a table's ascending rows, or where it would be put in.
pub fn find_row(block: &[u8], t: Table, key: u64) -> Result<usize, usize>
    requires { Sized block.now × Ascending (keys_of (rows_of t (content_of block.now))) }
    ensures { result ≡ find_key key (keys_of (rows_of t (content_of block.now))) }
{
    let at = standing_of(t);
    let n = row_count(block, t);
    let (place, _) = find(block, at, n, key);
    place
}

// The place of a key, or of the first greater one.
fn place_in(place: Result<usize, usize>) -> usize
    ensures { result ≡ place_in place }
{
    match place {
        Ok(i) | Err(i) => i,
    }
}

// The first key of a table that is at least a number.
pub fn first_key_from(block: &[u8], t: Table, low: u64) -> Option<u64>
    requires { Sized block.now × Ascending (keys_of (rows_of t (content_of block.now))) }
    ensures { result ≡ answered (first_from low (keys_of (rows_of t (content_of block.now)))) }
{
    let i = place_in(find_row(block, t, low));
    if i < row_count(block, t) {
        return Some(row_key(block, t, i));
    }
    None
}
