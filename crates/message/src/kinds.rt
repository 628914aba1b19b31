// The kinds of a message: octets, since `kind_allowed` and `binding_at` answer for each octet that may arrive.
pub const GET: u8 = 0;

pub const GET_NEXT: u8 = 1;

pub const RESPONSE: u8 = 2;

pub const SET: u8 = 3;
