//! The program's version line.

/// The version of the program, the formats of the store files that it makes, and the kit that proved and built it.
pub const VERSION: &str = "1.0.0 (formats 2 and 3, rattle-kit-13)";
