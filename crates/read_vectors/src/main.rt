// Reads damaged requests and prints what each reading gives: a get and a set cut at every length and changed at every octet, and a get with 0 to 18
// bindings.
#![tactic(auto)]

ghost use Rattle.std.specs.Prelude.{◌<◌, ◌≤◌, length};

use message::reader::request_of;
use octets::parts::copy_in;
use std::io;

// The get of paper 01's first case: NumPorts, id 7.
const GET: [u8; 65] = [
    1, 0, 1, 0, 2, 0, 4, 0, 0, 0, 7, 3, 0, 2, 0, 0, 16, 0, 46, 17, 0, 40, 0, 0, 0, 1, 0, 0, 0, 3,
    0, 0, 0, 6, 0, 0, 0, 1, 0, 0, 0, 2, 0, 0, 0, 1, 0, 0, 0, 17, 0, 0, 0, 1, 0, 0, 0, 2, 0, 0, 0,
    0, 32, 0, 0,
];

// A set with a string and an integer, names of two sub-ids.
const SET: [u8; 56] = [
    1, 0, 1, 3, 2, 0, 4, 0, 0, 1, 0, 3, 0, 2, 0, 0, 16, 0, 16, 17, 0, 8, 0, 0, 0, 1, 0, 0, 0, 3,
    34, 0, 2, 97, 98, 16, 0, 18, 17, 0, 8, 0, 0, 0, 1, 0, 0, 0, 4, 33, 0, 4, 0, 0, 0, 5,
];

const VALUES: [u8; 15] = [0, 1, 2, 3, 4, 8, 16, 17, 32, 33, 34, 36, 37, 48, 255];

// What the reading of a request gives, on a line.
fn say_reading(rt: &impl Print, s: &[u8]) -> io::Result<()> {
    match request_of(s) {
        Ok(request) => println!(rt; "read {} {} {}", request.kind, request.id, request.count),
        Err(refusal) => println!(rt; "refused {} {}", u32::from(refusal.reason), refusal.at),
    }
}

// The request cut at every length.
fn cut(rt: &impl Print, s: &[u8]) -> io::Result<()> {
    for n in 0..=s.len() {
        say_reading(rt, &s[..n])?;
    }
    Ok(())
}

// The request with other values in the octet at p, which gets its own back.
fn change_at(rt: &impl Print, s: &mut [u8], p: usize) -> io::Result<()>
    requires { p < length s.old }
{
    let own = s[p];
    for value in VALUES {
        s[p] = value;
        say_reading(rt, s)?;
    }
    s[p] = own;
    Ok(())
}

fn change(rt: &impl Print, s: &mut [u8]) -> io::Result<()> {
    for p in 0..s.len() {
        change_at(rt, s, p)?;
    }
    Ok(())
}

// A get with k bindings, each that of the first case.
fn many(rt: &impl Print, k: usize) -> io::Result<()>
    requires { k ≤ 18 }
{
    let mut s = [0u8; 1024];
    copy_in(&mut s, 0, &GET[..16]);
    for i in 0..k {
        copy_in(&mut s, 16 + 49 * i, &GET[16..]);
    }
    say_reading(rt, &s[..16 + 49 * k])
}

fn main(rt: HostRuntime) -> io::Result<()> {
    let mut get = GET;
    let mut set = SET;
    cut(&rt, &get)?;
    change(&rt, &mut get)?;
    cut(&rt, &set)?;
    change(&rt, &mut set)?;
    for k in 0..=18 {
        many(&rt, k)?;
    }
    Ok(())
}
