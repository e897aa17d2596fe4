// What the definitions mean for each other.
ghost use Rattle.fdt_write.specs.Laws.{IsReadBack};

/// The canonical bytes of a tree spell that tree: what is written is read as what was written. It holds for reservations
/// without a pair of zeros, for trees that may stand in memory, and for at most 2,097,152 bytes.
pub fn written_is_read()
    ensures { IsReadBack }
{}
