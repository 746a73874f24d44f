/// The most bytes of a board, fuse or plan file.
pub const MOST_FILE_BYTES: usize = 1_048_576;

/// The most fuses of a fuse file.
pub const MOST_FUSES: usize = 8_192;

/// The most named nets of a board.
pub const MOST_NETS: usize = 1_024;

/// The most chips of a board or a plan.
pub const MOST_CHIPS: usize = 64;

/// The most bytes of a script file.
pub const MOST_SCRIPT_BYTES: usize = 16_777_216;

/// The most steps of a script.
pub const MOST_STEPS: usize = 100_000;

/// The most place and absorb lines of a plan.
pub const MOST_PLAN_LINES: usize = 1_024;

/// The most variables of a joined part.
pub const MOST_VARIABLES: usize = 32;

/// The most primes of a cover's function.
pub const MOST_PRIMES: u32 = 4_096;
