// The tags of BER that a datagram has: octets, since `part_at` and `content_tag` answer for each octet that may arrive.
pub const BER_INTEGER: u8 = 0x02;

pub const BER_STRING: u8 = 0x04;

pub const BER_NULL: u8 = 0x05;

pub const BER_NAME: u8 = 0x06;

pub const BER_SEQUENCE: u8 = 0x30;

pub const BER_COUNTER: u8 = 0x41;

pub const BER_UNSIGNED: u8 = 0x42;

pub const BER_NO_SUCH_OBJECT: u8 = 0x80;

pub const BER_NO_SUCH_INSTANCE: u8 = 0x81;

pub const BER_END_OF_VIEW: u8 = 0x82;

// A PDU's tag is this and its kind.
pub const PDU_TAG: u8 = 0xA0;

pub const RESPONSE_PDU: u8 = 0xA2;
