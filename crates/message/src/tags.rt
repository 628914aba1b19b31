// The tags of a message's fields: octets, since `tag_allowed` and `content_length` answer for each octet that may arrive.
pub const KIND_TAG: u8 = 0x01;

pub const ID_TAG: u8 = 0x02;

pub const STATUS_TAG: u8 = 0x03;

pub const BINDING_TAG: u8 = 0x10;

pub const NAME_TAG: u8 = 0x11;

// Those of contents.
pub const NULL: u8 = 0x20;

pub const INTEGER: u8 = 0x21;

pub const STRING: u8 = 0x22;

pub const UNSIGNED: u8 = 0x23;

pub const COUNTER: u8 = 0x24;

// Those that stand for a value that is not there.
pub const NO_SUCH_OBJECT: u8 = 0x30;

pub const NO_SUCH_INSTANCE: u8 = 0x31;

pub const END_OF_VIEW: u8 = 0x32;
