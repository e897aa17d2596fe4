// Bytes that are shared, while memory is left.
use std::test::Fail;
use texts::Bytes;

#[test]
fn shared_bytes_are_copied_before_they_grow(rt: HostRuntime) -> Result<(), Fail> {
    let mut path = Bytes::new(rt.alloc());
    path.append(b"/chosen")?;
    let path = path.into_shared()?;
    let mut longer = path.copy(rt.alloc())?;
    longer.append(b"/domU0")?;
    assert_eq!(rt; path.as_slice(), b"/chosen".as_slice());
    assert_eq!(rt; longer.into_vec()?.as_slice(), b"/chosen/domU0".as_slice());
    assert_eq!(rt; path.into_vec()?.as_slice(), b"/chosen".as_slice());
    Ok(())
}
