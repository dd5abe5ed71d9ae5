//! The limits of sources and runs, all of one width.

/// The bytes of a source file.
pub const MAX_SOURCE: u32 = 1_048_576;

/// The nesting at which a token may stand.
pub const MAX_NESTING: u32 = 64;

/// The functions of a program.
pub const MAX_FUNCTIONS: u32 = 4_096;

/// The structs of a program.
pub const MAX_STRUCTS: u32 = 256;

/// The cells of a struct.
pub const MAX_STRUCT_CELLS: u32 = 64;

/// The elements of an array in a struct.
pub const MAX_ARRAY: u32 = 64;

/// The parameters of a function.
pub const MAX_PARAMETERS: u32 = 8;

/// The branches of a parallel sequence.
pub const MAX_BRANCHES: u32 = 64;

/// The variables of a function.
pub const MAX_VARIABLES: u32 = 256;

/// The values that one `printf` prints.
pub const MAX_PRINT_ARGUMENTS: u32 = 8;

/// The operators and brackets of one simple statement or initialiser.
pub const MAX_MARKS: u32 = 256;

/// The bytes of a name.
pub const MAX_NAME: u32 = 64;

/// The decoded bytes of a string.
pub const MAX_STRING: u32 = 255;

/// The steps of a unit, where a command states none and there is one node.
pub const MAX_STEPS: u32 = 1_048_576;

/// What a slot of fiber code counts down from.
pub const MAX_SLOT_COUNT: u32 = 255;

/// The bytes of a function's name in fiber code.
pub const MAX_CODE_NAME: u32 = 80;

/// The nodes of a run.
pub const MAX_NODES: u32 = 16;

/// The entries of a ring.
pub const MAX_RING: u32 = 64;

/// The cells of a block.
pub const MAX_BLOCK: u32 = 1_048_576;

/// The activations that may be open at once where a meaning is evaluated.
pub const MAX_ACTIVATIONS: u32 = 512;

/// The ticks that the evaluation of a meaning may spend.
pub const MAX_TICKS: u32 = 16_777_216;
