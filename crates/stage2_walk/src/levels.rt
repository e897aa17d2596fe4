// What a level of the walk makes of an address: the index of its word, and its offset in the region of that word.
ghost use Rattle.std.specs.Prelude.{◌≡◌, ◌≤◌, ◌<◌, ◌^◌, ◌+◌, ◌*◌, ◌%◌};
ghost use Rattle.described.specs.Regions.{span};
ghost use Rattle.stage2_walk.specs.Walks.{index_at};

/// How many pages a word of a level spans: 2^18, 2^9 and 1 at levels 1, 2 and 3.
pub fn pages_spanned(level: u8) -> u64
    requires at_least { 1 ≤ level }
    requires at_most { level ≤ 3 }
    ensures value { result ≡ span level }
    ensures positive { 1 ≤ result }
    ensures small { result ≤ 2 ^ 18 }
{
    match level {
        1 => 1 << 18,
        2 => 1 << 9,
        _ => 1,
    }
}

/// The index of an address in a table of a level: bits 38:30, 29:21 and 20:12 at levels 1, 2 and 3.
pub fn table_index(level: u8, address: u64) -> usize
    requires at_least { 1 ≤ level }
    requires at_most { level ≤ 3 }
    ensures value { result ≡ index_at level address }
    ensures within { result < 512 }
{
    (address / 4096 / pages_spanned(level) % 512) as usize
}

/// How many bytes an address lies behind the start of the region that its word of a level spans.
pub fn region_offset(level: u8, address: u64) -> u64
    requires at_least { 1 ≤ level }
    requires at_most { level ≤ 3 }
    ensures value { result ≡ address % (span level * 2 ^ 12) }
    ensures within { result < 2 ^ 30 }
{
    address % (pages_spanned(level) * 4096)
}
