// Trees in memory: what is added is found, while memory is left.
use fdt_tree::{EditFault, Tree};
use std::alloc::Global;
use std::test::Fail;

/// / { cpus { cpu@0; cpu@1; }; memory; }, of which cpu@1 is added last.
fn small(alloc: Global) -> Result<Tree, EditFault> {
    let mut tree = match Tree::new(alloc) {
        Ok(tree) => tree,
        Err(_) => return Err(EditFault::Memory),
    };
    let root = tree.root();
    let cpus = tree.add_node(root, b"cpus")?;
    let _ = tree.add_node(cpus, b"cpu@0")?;
    let _ = tree.add_node(root, b"memory")?;
    let _ = tree.add_node(cpus, b"cpu@1")?;
    Ok(tree)
}

#[test]
fn edits_find_their_node_by_its_path(rt: HostRuntime) -> Result<(), Fail> {
    let mut tree = small(rt.alloc())?;
    let added = tree.mknod(b"/cpus/cpu@1", b"l2")?;
    assert_eq!(rt; tree.find(b"/cpus/cpu@1/l2"), Some(added));
    tree.set(b"/cpus/cpu@1/l2", b"reg", b"a")?;
    tree.set(b"/cpus/cpu@1/l2", b"status", b"b")?;
    tree.set(b"/cpus/cpu@1/l2", b"reg", b"c")?;
    assert_eq!(rt; tree.prop(added, b"reg"), Some(b"c".as_slice()));
    assert_eq!(rt; tree.prop_count(added), 2);
    Ok(())
}
