// Messages played in one order and in another, by the exported calls: demand 3's two sets, and the batches that E13's check accepts. No host calls these functions; their contracts are the statements of order for the exported calls.
#![tactic(auto)]

pub mod batches;

ghost use Rattle.orders.specs.Pairs.{BothOrders};

use refbridge::{RbResult, rb_answer};

// The results of demand 3's four calls: a and then b on one block, b and then a on the other.
#[derive(Drop)]
pub struct FourCalls {
    pub a1: RbResult,
    pub b2: RbResult,
    pub b1: RbResult,
    pub a2: RbResult,
}

// Answers two messages in both orders, on two blocks and with four rooms.
pub fn both_orders(
    one: &mut [u8],
    other: &mut [u8],
    a: &[u8],
    b: &[u8],
    r1: &mut [u8],
    r2: &mut [u8],
    r3: &mut [u8],
    r4: &mut [u8],
) -> FourCalls
    ensures { BothOrders one.old other.old a.now b.now r1.old r2.old r3.old r4.old result r1.new r2.new r3.new r4.new one.new other.new }
{
    let a1 = rb_answer(one, a, r1);
    let b2 = rb_answer(one, b, r2);
    let b1 = rb_answer(other, b, r3);
    let a2 = rb_answer(other, a, r4);
    FourCalls { a1, b2, b1, a2 }
}
