// The tree that is generated for a number.
ghost use Rattle.std.specs.Prelude.{◌≤◌};

use dom0less::generate;
use fdt_write::write;
use std::alloc::{AllocError, Global};
use std::test::Fail;
use tree_generator::generated_tree;

/// How many bytes the tree of a number has.
fn length_of(alloc: Global, number: u32) -> Result<usize, AllocError>
    requires { number ≤ 15 }
{
    Ok(generate(alloc, number)?.len())
}

#[test]
fn generated_trees_have_their_lengths(rt: HostRuntime) -> Result<(), Fail> {
    assert_eq!(rt; length_of(rt.alloc(), 0)?, 592);
    assert_eq!(rt; length_of(rt.alloc(), 1)?, 1256);
    assert_eq!(rt; length_of(rt.alloc(), 15)?, 7360);
    Ok(())
}

#[test]
fn generated_bytes_are_those_of_the_generated_tree(rt: HostRuntime) -> Result<(), Fail> {
    let tree = generated_tree(rt.alloc(), 0)?;
    let written = write(rt.alloc(), &tree, &[], 0)?;
    let bytes = generate(rt.alloc(), 0)?;
    assert!(rt; bytes.starts_with(&[0xd0, 0x0d, 0xfe, 0xed, 0, 0, 2, 0x50]));
    assert_eq!(rt; bytes.as_slice(), written.as_slice());
    Ok(())
}
