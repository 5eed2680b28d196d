// How large the tables are that code of this crate makes on its stack. Tables for small inputs are cheaper to clear.

// An event of at most SMALL_EVENT bytes has at most SMALL_PAIRS pairs in its bets, one of at most SHORT_EVENT at most SHORT_PAIRS, any event at most
// MOST_PAIRS: a pair has five bytes or more.
pub const SMALL_EVENT: usize = 512;

pub const SMALL_PAIRS: usize = 103;

pub const SHORT_EVENT: usize = 2048;

pub const SHORT_PAIRS: usize = 410;

pub const MOST_PAIRS: usize = 6554;

// One link for each variable.
pub const LINKS: usize = 65536;

// Two values of at most SHORT_VALUES bytes together have at most SHORT_NODES nodes, any two at most MOST_NODES: a node has three bytes or more.
pub const SHORT_VALUES: usize = 384;

pub const SHORT_NODES: usize = 128;

pub const MOST_NODES: usize = 5462;

// Where each argument of an atom starts, and where the last one ends.
pub const ARGUMENT_PLACES: usize = 17;
