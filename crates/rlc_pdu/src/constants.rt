/// The AM modulus: numbers of acknowledged bearers are written modulo so many (TS 36.322 7.1).
pub const AM_MODULUS: u64 = 1024;

/// How many numbers the window of an acknowledged bearer has: AM_Window_Size (TS 36.322 7.2).
pub const AM_WINDOW_SIZE: usize = 512;

/// The UM moduli: numbers of unacknowledged bearers are written modulo so many, those of 5 bits and
/// those of 10 (TS 36.322 7.1).
pub const UM_SHORT_MODULUS: u32 = 32;

pub const UM_LONG_MODULUS: u32 = 1024;

/// UM_Window_Size of numbers of 5 bits and of 10 (TS 36.322 7.2).
pub const UM_SHORT_WINDOW_SIZE: u32 = 16;

pub const UM_LONG_WINDOW_SIZE: u32 = 512;
