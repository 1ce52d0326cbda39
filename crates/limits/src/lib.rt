// The limits of a sheet by name. The ends have them as associated constants.
#![tactic(auto)]

// clients of a sheet
pub const LINES: u8 = 8;

// inserts of a client over its whole life: deleting an item does not give its insert back
pub const INSERTS: u16 = 48;

// edits of a client, and of the seven others together
pub const EDITS: u16 = 400;

pub const OTHERS: u16 = 2800;

// pending edits of a line (01: kept edits)
pub const PENDING: usize = 64;

// items of a list, and of an opening list: 512 = 128 + 8 * 48
pub const ITEMS: usize = 512;

pub const INITIAL: usize = 128;

// bytes of a packet (02: N2)
pub const PACKET: usize = 1400;
