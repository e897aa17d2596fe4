// The adapters at the real file system: that files are written, measured and read while memory is left, and how they are missed;
// and that no file of the user's is written beside an output.
use outside::{FileError, Files, Outs, SizeError};
use real_outside::Folder;
use std::fs;
use std::test::Fail;

#[test]
fn adapters_write_read_and_miss_real_files(rt: HostRuntime) -> Result<(), Fail> {
    let id = std::process::id(rt.process());
    let name = format!(in rt.alloc(); "adapters-{id}")?;
    let mut folder = Folder::new(&rt);
    assert_eq!(rt;
        folder.read(rt.alloc(), name.as_str(), 4).err(),
        Some(FileError::Absent)
    );
    assert_eq!(rt; folder.size(name.as_str()), Err(SizeError::Absent));
    assert_eq!(rt; folder.write(name.as_str(), b"tree").is_ok(), true);
    assert_eq!(rt; folder.size(name.as_str()), Ok(4));
    assert_eq!(rt;
        folder.read(rt.alloc(), name.as_str(), 4)?.as_slice(),
        b"tree".as_slice()
    );
    assert_eq!(rt;
        folder.read(rt.alloc(), name.as_str(), 3).err(),
        Some(FileError::Longer)
    );
    fs::remove_file(&rt, name.as_str())?;
    assert_eq!(rt;
        folder.read(rt.alloc(), ".", 4).err(),
        Some(FileError::Failed)
    );
    assert_eq!(rt; folder.write(".", b"tree").is_ok(), false);
    Ok(())
}

#[test]
fn part_of_the_user_is_kept(rt: HostRuntime) -> Result<(), Fail> {
    let id = std::process::id(rt.process());
    let name = format!(in rt.alloc(); "output-{id}")?;
    let part = format!(in rt.alloc(); "output-{id}.part")?;
    let other = format!(in rt.alloc(); "output-{id}.part1")?;
    let mut folder = Folder::new(&rt);
    assert_eq!(rt; folder.write(part.as_str(), b"mine").is_ok(), true);
    assert_eq!(rt; folder.write(name.as_str(), b"tree").is_ok(), true);
    assert_eq!(rt;
        folder.read(rt.alloc(), name.as_str(), 4)?.as_slice(),
        b"tree".as_slice()
    );
    assert_eq!(rt;
        folder.read(rt.alloc(), part.as_str(), 4)?.as_slice(),
        b"mine".as_slice()
    );
    assert_eq!(rt; folder.size(other.as_str()), Err(SizeError::Absent));
    fs::remove_file(&rt, name.as_str())?;
    fs::remove_file(&rt, part.as_str())?;
    Ok(())
}
