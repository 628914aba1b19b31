// Sets up blocks of the older edition, of both devices and with 1, 8, 9, 63 and 64 ports, and prints their octets, 16 a line, without the lines of zeros.
#![tactic(auto)]

use changes::setup::{SetUpRefused, set_up};
use names::device::{SOURCE_ROUTING, TRANSPARENT};
use names::model::Model;
use names::rule::OLD_EDITION;
use octets::parts::all_zero;
use std::io;

// The octets of a line that starts at index at.
fn say_line(rt: &impl Print, at: usize, line: &[u8]) -> io::Result<()> {
    print!(rt; "{at}: ")?;
    for octet in line {
        print!(rt; "{octet:02x}")?;
    }
    println!(rt;)
}

fn say_block(rt: &impl Print, block: &[u8]) -> io::Result<()> {
    for (i, line) in block.chunks(16).enumerate() {
        if !all_zero(line, 0, line.len()) {
            say_line(rt, 16 * i, line)?;
        }
    }
    Ok(())
}

fn show(rt: &impl Print, n: u32, device: u32) -> io::Result<()> {
    let mut block = [255u8; 32768];
    let address = [2u8, 0, 94, 16, 0, 1];
    let model = Model {
        ports: n,
        edition: OLD_EDITION,
        device,
    };
    println!(rt; "ports {n} device {device}")?;
    match set_up(&mut block, model, &address) {
        Ok(()) => say_block(rt, &block),
        Err(SetUpRefused) => println!(rt; "refused"),
    }
}

fn main(rt: HostRuntime) -> io::Result<()> {
    for n in [1, 8, 9, 63, 64] {
        show(&rt, n, TRANSPARENT)?;
    }
    for n in [1, 64] {
        show(&rt, n, SOURCE_ROUTING)?;
    }
    Ok(())
}
