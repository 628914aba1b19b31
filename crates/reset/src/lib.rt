// A reset: static rows of status 4 go, and the rows behind them close up, in one pass and in place.
#![tactic(auto)]

ghost use Rattle.std.specs.Prelude.{◌≡◌, ◌<◌, ◌≤◌, true, length, take};
ghost use Rattle.block.specs.Layout.{block_size, most_rows};
ghost use Rattle.block.specs.Content.{Content, WellFormed, with_statics};
ghost use Rattle.block.specs.Image.{image, content_of};
ghost use Rattle.block.specs.Valid.{legal};
ghost use Rattle.reset.specs.Reset.{stay, after_reset};
ghost use Rattle.reset.specs.Closing.{closing, IsImage, moved, next_free};

use block::layout::{AT_STATIC_COUNT, AT_STATICS, STATIC_WIDTH};
use block::reads::entry;
use block::rows::StaticRow;
use block::tables::{Table, row_count, row_key};
use changes::change_row;
use octets::numbers::put_be4;
use octets::parts::clear;

// The status of a row that a reset removes: an octet of the block.
const DELETE_ON_RESET: u8 = 4;

// Writes the row at place i at place kept if it stays, and gives the next place.
fn move_row(block: &mut [u8], kept: usize, i: usize) -> usize
    requires { IsImage block.old × (i < length (content_of block.old).statics) × (kept ≤ i) }
    ensures { (result ≡ next_free (content_of block.old) kept i) × (block.new ≡ image (moved (content_of block.old) kept i)) }
{
    let row: StaticRow = entry(block, i);
    if row.status == DELETE_ON_RESET {
        return kept;
    }
    let key = row_key(block, Table::Static, i);
    change_row(block, kept, key, &row);
    kept + 1
}

// Writes the rows that stay one behind the other, and tells how many they are. Behind them stand rows as they were.
fn close_up(block: &mut [u8]) -> usize
    requires { legal block.old ≡ true }
    ensures { (result ≡ length (stay (content_of block.old).statics)) × (block.new ≡ image (with_statics (content_of block.old) (closing (content_of block.old).statics (content_of block.old).statics))) }
{
    let n = row_count(block, Table::Static);
    let mut kept = 0;
    for i in 0..n {
        kept = move_row(block, kept, i);
    }
    kept
}

// Takes all static rows from place kept on out.
fn cut(block: &mut [u8], kept: usize)
    requires { (length block.old ≡ block_size) × (length (content_of block.old).statics ≤ most_rows) × (kept ≤ length (content_of block.old).statics) }
    ensures { (c : Content) → WellFormed c → kept ≤ length c.statics → block.old ≡ image c → block.new ≡ image (with_statics c (take kept c.statics)) }
{
    let n = row_count(block, Table::Static);
    let from = kept * STATIC_WIDTH;
    clear(block, AT_STATICS + from, n * STATIC_WIDTH - from);
    put_be4(block, AT_STATIC_COUNT, kept as u32);
}

// Resets a legal block.
pub fn reset(block: &mut [u8])
    requires { legal block.old ≡ true }
    ensures { block.new ≡ image (after_reset (content_of block.old)) }
{
    let kept = close_up(block);
    cut(block, kept);
}
