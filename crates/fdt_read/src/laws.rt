// Laws over the definitions. Each is the contract of a function that does nothing.
ghost use Rattle.fdt_read.specs.Laws.{IsDecided};

/// Every file either is a flattened tree or has a first refusal, never both; and a flattened tree says one thing alone.
pub fn one_reading(bytes: &[u8])
    ensures { IsDecided bytes.now }
{
    let _ = bytes;
}
