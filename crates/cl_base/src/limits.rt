//! The limits of a program, its policy and its runs: numbers of bytes as `usize`, all other counts as `u32`.

/// Bytes of a source, of a policy, and of each input.
pub const SOURCE_BYTES: usize = 1_048_576;

/// Levels of one program.
pub const LEVELS: u32 = 32;

/// Label definitions of one program.
pub const DEFINITIONS: u32 = 1024;

/// Structs of one program.
pub const STRUCTS: u32 = 256;

/// Functions of one program.
pub const FUNCTIONS: u32 = 4096;

/// Variables at file scope and static locals, together.
pub const OBJECTS: u32 = 4096;

/// Integers in one object.
pub const OBJECT_INTEGERS: u32 = 65_536;

/// Integers in all objects of static duration.
pub const STATIC_INTEGERS: u32 = 1_048_576;

/// Integers in the parameters and locals of one function, all its declarations together.
pub const LOCAL_INTEGERS: u32 = 8192;

/// Bytes of a frame's payload.
pub const PAYLOAD_BYTES: usize = 4096;

/// Bytes of a frame.
pub const FRAME_BYTES: usize = 4121;

/// Rules of one policy.
pub const POLICY_RULES: u32 = 1024;

/// Brackets that are open at one place.
pub const OPEN_BRACKETS: u32 = 64;

/// Tokens without `{ } ; ,` or a `#pragma cle` line between them, where a run of type words counts as one.
pub const RUN_TOKENS: u32 = 512;

/// `else` in one item.
pub const ITEM_ELSES: u32 = 256;

/// Calls that are active at one level.
pub const ACTIVE_CALLS: u32 = 256;

/// Bytes of output at one level.
pub const OUTPUT_BYTES: usize = 1_000_000;

/// Frame cost of one calling level.
pub const FRAME_COST: u32 = 8_388_608;

// Contracts cite these constants by their names, so the numbers stand here once more.
const _: () = prove!(SOURCE_BYTES == 1_048_576);

const _: () = prove!(LEVELS == 32);

const _: () = prove!(DEFINITIONS == 1024);

const _: () = prove!(STRUCTS == 256);

const _: () = prove!(FUNCTIONS == 4096);

const _: () = prove!(OBJECTS == 4096);

const _: () = prove!(OBJECT_INTEGERS == 65_536);

const _: () = prove!(STATIC_INTEGERS == 1_048_576);

const _: () = prove!(LOCAL_INTEGERS == 8192);

const _: () = prove!(PAYLOAD_BYTES == 4096);

const _: () = prove!(FRAME_BYTES == 4121);

const _: () = prove!(POLICY_RULES == 1024);

const _: () = prove!(OPEN_BRACKETS == 64);

const _: () = prove!(RUN_TOKENS == 512);

const _: () = prove!(ITEM_ELSES == 256);

const _: () = prove!(ACTIVE_CALLS == 256);

const _: () = prove!(OUTPUT_BYTES == 1_000_000);

const _: () = prove!(FRAME_COST == 8_388_608);
