// Calls of fdt_nodes while memory is left.
use described::Part;
use fdt_nodes::{children, descendants, found, item_of, nodes, path};
use fdt_tree::Tree;
use std::test::Fail;

#[test]
fn nodes_are_met_in_document_order(rt: HostRuntime) -> Result<(), Fail> {
    let mut tree = Tree::new(rt.alloc())?;
    let soc = tree.add_node(tree.root(), b"soc")?;
    let uart = tree.add_node(soc, b"uart@1000")?;
    let chosen = tree.add_node(tree.root(), b"chosen")?;
    let all = nodes(rt.alloc(), &tree)?;
    assert_eq!(rt; all.as_slice(), [tree.root(), soc, uart, chosen].as_slice());
    let below = descendants(rt.alloc(), &tree, tree.root())?;
    assert_eq!(rt; below.as_slice(), [soc, uart, chosen].as_slice());
    let nearest = children(rt.alloc(), &tree, tree.root())?;
    assert_eq!(rt; nearest.as_slice(), [soc, chosen].as_slice());
    assert_eq!(rt; found(&tree, b"/soc/uart@1000"), Some(uart));
    assert_eq!(rt;
        path(rt.alloc(), &tree, uart)?.as_slice(),
        b"/soc/uart@1000".as_slice()
    );
    let item = item_of(rt.alloc(), &tree, Part::Range, uart, 7)?;
    assert_eq!(rt; item.path.as_slice(), b"/soc/uart@1000".as_slice());
    assert_eq!(rt; item.index, 7);
    Ok(())
}
