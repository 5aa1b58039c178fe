// The limits of sizes.

/// The most bytes that a file of ICL, PDL, devices or tables may have. A longer one is refused.
pub const SOURCE_LIMIT: u32 = 16_777_216;

/// The most bytes that an SVF file may have. A longer one is refused, and none is written.
pub const SVF_LIMIT: u32 = 134_217_728;

/// The most clocks of TCK that the commands of an SVF file may take.
pub const CLOCK_LIMIT: u32 = 1_000_000_000;

/// The most bits that a scan of an SVF file may have.
pub const SCAN_LIMIT: u32 = 65_536;
