// A flattened tree whose bytes were worked out by hand from the layout of the standard.
use fdt_tree::{Reserve, Tree};
use fdt_write::write;
use std::test::Fail;

/// 64 KiB at 2 GiB reserved, processor 3, and a root with the children `x` and `y`, which both have the property `p`: a
/// byte 1 in `x`, nothing in `y`.
const SHARED_NAME: [u8; 142] = [
    0xd0, 0x0d, 0xfe, 0xed, 0, 0, 0, 0x8e, 0, 0, 0, 0x48, 0, 0, 0, 0x8c, 0, 0, 0, 0x28, 0, 0, 0,
    0x11, 0, 0, 0, 0x10, 0, 0, 0, 3, 0, 0, 0, 2, 0, 0, 0, 0x44, 0, 0, 0, 0, 0x80, 0, 0, 0, 0, 0, 0,
    0, 0, 1, 0, 0, 0, 0, 0, 0, 0, 0, 0, 0, 0, 0, 0, 0, 0, 0, 0, 0, 0, 0, 0, 1, 0, 0, 0, 0, 0, 0, 0,
    1, 0x78, 0, 0, 0, 0, 0, 0, 3, 0, 0, 0, 1, 0, 0, 0, 0, 1, 0, 0, 0, 0, 0, 0, 2, 0, 0, 0, 1, 0x79,
    0, 0, 0, 0, 0, 0, 3, 0, 0, 0, 0, 0, 0, 0, 0, 0, 0, 0, 2, 0, 0, 0, 2, 0, 0, 0, 9, 0x70, 0,
];

#[test]
fn shared_name_is_written_once(rt: HostRuntime) -> Result<(), Fail> {
    let mut tree = Tree::new(rt.alloc())?;
    let x = tree.add_node(tree.root(), b"x")?;
    tree.add_prop(x, b"p", &[1])?;
    let y = tree.add_node(tree.root(), b"y")?;
    tree.add_prop(y, b"p", &[])?;
    let reserves = [Reserve {
        address: 0x8000_0000,
        size: 0x1_0000,
    }];
    let bytes = write(rt.alloc(), &tree, &reserves, 3)?;
    assert_eq!(rt; bytes.as_slice(), SHARED_NAME.as_slice());
    Ok(())
}

/// A root without a name, properties or nodes, and nothing else: a header, the end of the reservations, and four words.
const ROOT_ALONE: [u8; 72] = [
    0xd0, 0x0d, 0xfe, 0xed, 0, 0, 0, 0x48, 0, 0, 0, 0x38, 0, 0, 0, 0x48, 0, 0, 0, 0x28, 0, 0, 0,
    0x11, 0, 0, 0, 0x10, 0, 0, 0, 0, 0, 0, 0, 0, 0, 0, 0, 0x10, 0, 0, 0, 0, 0, 0, 0, 0, 0, 0, 0, 0,
    0, 0, 0, 0, 0, 0, 0, 1, 0, 0, 0, 0, 0, 0, 0, 2, 0, 0, 0, 9,
];

#[test]
fn root_alone_has_72_bytes(rt: HostRuntime) -> Result<(), Fail> {
    let tree = Tree::new(rt.alloc())?;
    let bytes = write(rt.alloc(), &tree, &[], 0)?;
    assert_eq!(rt; bytes.as_slice(), ROOT_ALONE.as_slice());
    Ok(())
}
