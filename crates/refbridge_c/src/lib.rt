// The archive's exports, which include/refbridge.h declares: each calls the function of its name in the crate refbridge, and promises what that promises.
#![tactic(auto)]

pub mod batches;
pub mod comparison;
pub mod datagrams;
pub mod resets;
pub mod serial;
pub mod tallies;

ghost use Rattle.std.specs.Prelude.{◌≡◌, cond};
ghost use Rattle.timers.specs.Timers.{to256ths, to_hundredths};
ghost use Rattle.block.specs.Fresh.{set_up_takes, after_set_up};
ghost use Rattle.answer.specs.Respond.{answer_of};
ghost use Rattle.refbridge.specs.Calls.{model_with, outcome};

use refbridge::RbResult;

// Writes a fresh bridge of an edition and a device into the block.
#[unsafe(no_mangle)]
pub extern "C" fn rb_setup(
    block: &mut [u8],
    ports: u32,
    edition: u32,
    device: u32,
    address: &[u8],
) -> RbResult
    ensures { (result.number ≡ cond (set_up_takes block.old (model_with ports edition device) address.now) 0 9) × (result.count ≡ 0) × (result.offset ≡ 0) × (block.new ≡ after_set_up block.old (model_with ports edition device) address.now) }
{
    refbridge::rb_setup(block, ports, edition, device, address)
}

// Answers one request.
#[unsafe(no_mangle)]
pub extern "C" fn rb_answer(block: &mut [u8], request: &[u8], room: &mut [u8]) -> RbResult
    ensures { outcome result room.new block.new ≡ answer_of block.old request.now room.old }
{
    refbridge::rb_answer(block, request, room)
}

// Hundredths of a second to 256ths.
#[unsafe(no_mangle)]
pub extern "C" fn rb_to_256ths(hundredths: u32) -> RbResult
    ensures { ((result.number, result.count) ≡ to256ths hundredths) × (result.offset ≡ 0) }
{
    refbridge::rb_to_256ths(hundredths)
}

// 256ths of a second to hundredths.
#[unsafe(no_mangle)]
pub extern "C" fn rb_to_hundredths(ticks: u32) -> RbResult
    ensures { ((result.number, result.count) ≡ to_hundredths ticks) × (result.offset ≡ 0) }
{
    refbridge::rb_to_hundredths(ticks)
}
