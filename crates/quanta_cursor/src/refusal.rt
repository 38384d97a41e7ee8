// The refusals of the parser by name.
pub const EXPECTED_TOKEN: u32 = 12;

pub const EXPECTED_IDENTIFIER: u32 = 13;

pub const EXPECTED_INTEGER: u32 = 14;

pub const EXPECTED_IMPORT_NAME: u32 = 15;

pub const EXPECTED_STRING: u32 = 16;

pub const EXPECTED_EXPRESSION: u32 = 17;

pub const EXPECTED_TYPE: u32 = 18;

pub const EXPECTED_CONTRACT_ITEM: u32 = 19;

pub const TOO_DEEP: u32 = 20;

pub const BAD_TARGET: u32 = 21;

pub const TOKEN_AFTER_THE_END: u32 = 22;
