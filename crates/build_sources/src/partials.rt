// The guests' partial device trees.
ghost use Rattle.std.specs.Prelude.{◌≡◌, IfOk, IfErr, map, option_map, take};
ghost use Rattle.std.specs.Option.{option_copied};
ghost use Rattle.outside.specs.Reads.{Reads};
ghost use Rattle.domain_bindings.specs.Descriptions.{description_of, trees_in};
ghost use Rattle.run_steps.specs.Steps.{AfterEach, nothing};
ghost use Rattle.run_steps.specs.Stops.{StopsFor};
ghost use Rattle.build_sources.specs.Handed.{HandsOn};
ghost use Rattle.build_sources.specs.Meant.{meant_stand};
ghost use Rattle.build_sources.specs.Partials.{AfterLoaded, AfterPartial, AfterPartials, Describes, load_at, partial_addresses};

use crate::stand::Stand;
use described::Loaded;
use domain_bindings::{Domain, read_domains};
use fdt_tree::Tree;
use outside::Files;
use run_steps::{Stop, join};
use std::alloc::{AllocError, Global};
use tree_files::read_tree;

// For so many guests partial trees are read.
const GUEST_LIMIT: usize = 16;

/// For at most the first sixteen guests of what a build stands on, in document order: the partial tree of each, where one was
/// read. It is read from the file that was loaded last to the address of the guest's first device tree module, in a folder
/// where one is given.
pub fn read_partials<F: Files>(
    alloc: Global,
    stand: &Stand,
    folder: Option<&str>,
    files: &mut F,
) -> Result<Vec<Option<Tree>>, Stop>
    ensures read { IfOk result (λ partials. Describes (F.held files.old) (option_copied folder.entry) (meant_stand stand.now) (description_of stand.now.tree stand.now.reserves stand.now.loads partials.items)) }
    ensures stopped { IfErr result (StopsFor F.counts files.old files.new (AfterPartials (F.held files.old) (option_copied folder.entry) (meant_stand stand.now) nothing)) }
    ensures only_read { Reads F.held F.counts files.old files.new }
{
    let addresses = find_addresses(alloc, &stand.tree)?;
    read_at(alloc, folder, stand.loads.as_slice(), &addresses, files)
}

/// The addresses of the partial trees of the first guests.
fn find_addresses(alloc: Global, tree: &Tree) -> Result<Vec<Option<u64>>, AllocError>
    ensures { IfOk result (λ addresses. addresses.items ≡ partial_addresses tree.now.tree) }
{
    let domains = read_domains(alloc, tree)?;
    let mut addresses = Vec::new(alloc);
    let first = first_of(domains.as_slice());
    for domain in first {
        addresses.push(domain.partial)?;
    }
    Ok(addresses)
}

/// The guests whose partial trees are read.
fn first_of(domains: &[Domain]) -> &[Domain]
    ensures { result.now ≡ take 16 domains.now }
{
    if domains.len() <= GUEST_LIMIT {
        domains
    } else {
        &domains[..GUEST_LIMIT]
    }
}

/// The partial trees of guests that name these addresses, in their order.
fn read_at<F: Files>(
    alloc: Global,
    folder: Option<&str>,
    loads: &[Loaded],
    addresses: &[Option<u64>],
    files: &mut F,
) -> Result<Vec<Option<Tree>>, Stop>
    ensures read { IfOk result (λ partials. HandsOn (AfterEach (AfterPartial (F.held files.old) (option_copied folder.entry) loads.now) addresses.now) (trees_in partials.items)) }
    ensures stopped { IfErr result (StopsFor F.counts files.old files.new (AfterEach (AfterPartial (F.held files.old) (option_copied folder.entry) loads.now) addresses.now nothing)) }
    ensures only_read { Reads F.held F.counts files.old files.new }
{
    let mut partials = Vec::new(alloc);
    for address in addresses {
        match read_partial(alloc, folder, loads, *address, files) {
            Ok(partial) => partials.push(partial)?,
            Err(stop) => return Err(stop),
        }
    }
    Ok(partials)
}

/// The partial tree of a guest that names this address, where one was read.
fn read_partial<F: Files>(
    alloc: Global,
    folder: Option<&str>,
    loads: &[Loaded],
    address: Option<u64>,
    files: &mut F,
) -> Result<Option<Tree>, Stop>
    ensures read { IfOk result (λ partial. HandsOn (AfterPartial (F.held files.old) (option_copied folder.entry) loads.now address) (option_map (λ tree. tree.tree) partial)) }
    ensures stopped { IfErr result (StopsFor F.counts files.old files.new (AfterPartial (F.held files.old) (option_copied folder.entry) loads.now address nothing)) }
    ensures only_read { Reads F.held F.counts files.old files.new }
{
    match address {
        Some(address) => read_loaded(alloc, folder, find_load(loads, address), files),
        None => Ok(None),
    }
}

/// The tree in a loaded file, where there is one.
fn read_loaded<F: Files>(
    alloc: Global,
    folder: Option<&str>,
    load: Option<&Loaded>,
    files: &mut F,
) -> Result<Option<Tree>, Stop>
    ensures read { IfOk result (λ partial. HandsOn (AfterLoaded (F.held files.old) (option_copied folder.entry) (option_copied load.entry)) (option_map (λ tree. tree.tree) partial)) }
    ensures stopped { IfErr result (StopsFor F.counts files.old files.new (AfterLoaded (F.held files.old) (option_copied folder.entry) (option_copied load.entry) nothing)) }
    ensures only_read { Reads F.held F.counts files.old files.new }
{
    let Some(load) = load else {
        return Ok(None);
    };
    let path = join(alloc, folder, load.name.as_str())?;
    match read_tree(alloc, path.as_str(), files) {
        Ok(file) => Ok(Some(file.flat.tree)),
        Err(stop) => Err(stop),
    }
}

/// The last file that was loaded to an address.
fn find_load(loads: &[Loaded], address: u64) -> Option<&Loaded>
    ensures { option_copied result ≡ load_at loads.now address }
{
    let mut found = None;
    for load in loads {
        if load.address == address {
            found = Some(load);
        }
    }
    found
}
