// The sizes of the regions that words of levels 1 and 2 stand for.

/// How many pages a 1 GiB region has, which one word of level 1 stands for.
pub const LARGE: u64 = 262_144;

/// How many pages a 2 MiB region has, which one word of level 2 stands for.
pub const SMALL: u64 = 512;
