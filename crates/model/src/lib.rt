// The records and the numbers that document 01's definitions and the functions share. It has no function: a number that
// is not the definitions' own is refused where it is used.
#![tactic(auto)]

// Limits of N, of the window, of a caller's spread, of the precision and the drift that an interval is for, of an
// accuracy to start from and to step from, and of the rounds.
pub const MAX_CABINETS: u8 = 64;

// The most cabinets, as the length of a list.
pub const MOST: usize = 64;

pub const MAX_WINDOW: u32 = 1_000_000;

pub const MAX_SPREAD: u32 = 100_000;

pub const MAX_PRECISION: u32 = 1_000_000;

pub const MAX_DRIFT: u32 = 1_000;

pub const MAX_ACCURACY: u32 = 1_000_000_000;

pub const MAX_STEP_ACCURACY: u32 = 1_100_000_000;

pub const MAX_ROUNDS: u32 = 32;

// The bytes before the first mark of a round sheet, and of an answer sheet.
pub const HEADER_SIZE: usize = 8;

pub const ANSWER_HEADER_SIZE: usize = 10;

// The bytes of a trace before its first role.
pub const TRACE_HEADER_SIZE: usize = 9;

// The rules.
// Stays: numbers (a), as the bytes of document 01's sheets and C's struct Settings have them, which may hold any byte.
pub const FCA: u8 = 0;

pub const CCA: u8 = 1;

pub const TRIMMED_MIDPOINT: u8 = 2;

pub const TRIMMED_MEAN: u8 = 3;

// The estimators.
// Stays: numbers (a), as the rules.
pub const AVERAGE: u8 = 0;

pub const MEDIAN: u8 = 1;

pub const MIDPOINT: u8 = 2;

// The role of a sound cabinet in a trace; any other is a faulty one's.
// Stays: a number (a), as the bytes of document 02's trace have it.
pub const SOUND: u8 = 1;

// What a round sheet's sizes say. Nothing is presumed checked: any bytes may stand here.
#[repr(C)]
#[derive(Clone, Copy)]
pub struct Settings {
    // N, the cabinets.
    pub n: u8,
    // m, the faults planned for.
    pub m: u8,
    // 0 FCA, 1 CCA, 2 trimmed midpoint, 3 trimmed mean.
    pub rule: u8,
    // 0 average, 1 median, 2 midpoint; 0 with the trimming rules.
    pub estimator: u8,
    // The window in ticks.
    pub window: u32,
}
