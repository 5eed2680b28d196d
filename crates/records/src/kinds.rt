// The bytes and sizes that SPECIFICATION 1 and 10 fix: the limits of records, of values and of arities, the version of every record, ports, tags,
// and the kinds of terms, goals, ancestors and bets. An ancestor that is an atom has the atom's kind. They are bytes of the format and written as they
// are; what is read of them is an enum of `heads`.
pub const RECORD_LIMIT: usize = 32768;

pub const VALUE_LIMIT: usize = 8192;

pub const ARITY_LIMIT: usize = 16;

pub const VERSION: u8 = 1;

pub const CALL: u8 = 1;

pub const EXIT: u8 = 2;

pub const FAIL: u8 = 3;

pub const REDO: u8 = 4;

pub const FIRST: u8 = 1;

pub const SECOND: u8 = 2;

pub const VARIABLE: u8 = 0x01;

pub const SYMBOL: u8 = 0x02;

pub const TRUTH: u8 = 0x10;

pub const FAILURE: u8 = 0x11;

pub const EQUAL: u8 = 0x12;

pub const CONJ: u8 = 0x13;

pub const DISJ: u8 = 0x14;

pub const ATOM: u8 = 0x15;

pub const UNIFIER: u8 = 0x20;

pub const OR: u8 = 0x21;

pub const BY: u8 = 0x22;

pub const IN_CONJ: u8 = 0x30;

pub const IN_DISJ: u8 = 0x31;
