// The kinds of tree records by name, numbered as in the tree's words.
pub const PROGRAM: u32 = 1;

pub const IMPORT: u32 = 2;

pub const CONTRACT: u32 = 3;

pub const ASSET: u32 = 4;

pub const STATE: u32 = 5;

pub const GENESIS: u32 = 6;

pub const INVARIANT: u32 = 7;

pub const EVENT: u32 = 8;

pub const ENTRY: u32 = 9;

pub const FIELD: u32 = 10;

pub const PARAM: u32 = 11;

pub const WRITES: u32 = 12;

pub const READS: u32 = 13;

pub const CONSERVES: u32 = 14;

pub const MINTS: u32 = 15;

pub const BURNS: u32 = 16;

pub const LIMITS: u32 = 17;

pub const DENIES: u32 = 18;

pub const AFTER: u32 = 19;

pub const TYPE: u32 = 20;

pub const M_OF_N: u32 = 21;

pub const GUARD: u32 = 22;

pub const LET: u32 = 23;

pub const EMIT: u32 = 24;

pub const ASSIGN: u32 = 25;

pub const EXPR: u32 = 26;

pub const NAME: u32 = 27;

pub const INT: u32 = 28;

pub const DATE: u32 = 29;

pub const STR: u32 = 30;

pub const CALLER: u32 = 31;

pub const IN_ASSET: u32 = 32;

pub const NATIVE: u32 = 33;

pub const NOW: u32 = 34;

pub const CHECKED: u32 = 35;

pub const WRAPPING: u32 = 36;

pub const UNARY: u32 = 37;

pub const BINARY: u32 = 38;

pub const ACCESS: u32 = 39;

pub const CALL: u32 = 40;
