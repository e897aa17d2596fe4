// Files none of whose calls fails, and outputs and a stream that take all.
use dom0less::{generate, run};
use outside::{FileError, Files, MemFiles, NullOuts, NullSink, SizeError, Status, SureFiles};
use std::alloc::{AllocError, Global};
use std::test::Fail;

/// One file of this name.
fn one_file(alloc: Global, name: &str, bytes: &[u8]) -> Result<SureFiles, AllocError> {
    let mut files = MemFiles::new(alloc);
    files.add(name, bytes)?;
    Ok(SureFiles::new(files))
}

#[test]
fn sure_files_hold_what_was_added(rt: HostRuntime) -> Result<(), Fail> {
    let mut files = one_file(rt.alloc(), "a", b"tree")?;
    assert_eq!(rt; files.size("a"), Ok(4));
    assert_eq!(rt; files.size("b"), Err(SizeError::Absent));
    assert_eq!(rt;
        files.read(rt.alloc(), "b", 4).err(),
        Some(FileError::Absent)
    );
    assert_eq!(rt;
        files.read(rt.alloc(), "a", 4)?.as_slice(),
        b"tree".as_slice()
    );
    Ok(())
}

/// The words of a build of a ready tree.
fn build_words(alloc: Global) -> Result<Vec<String>, AllocError> {
    let mut words = Vec::new(alloc);
    for word in ["dom0less", "-b", "host.dtb"] {
        words.push(String::from_str(alloc, word)?)?;
    }
    Ok(words)
}

/// Builds the generated tree of number 0, and keeps nothing of what is written.
fn build_unkept(alloc: Global) -> Result<Status, AllocError> {
    let tree = generate(alloc, 0)?;
    let mut files = one_file(alloc, "host.dtb", &tree)?;
    let words = build_words(alloc)?;
    Ok(run(
        alloc,
        &words,
        &mut files,
        &mut NullOuts,
        &mut NullSink,
        &mut NullSink,
    ))
}

#[test]
fn build_whose_outputs_are_not_kept_is_built(rt: HostRuntime) -> Result<(), Fail> {
    assert_eq!(rt; build_unkept(rt.alloc())?, Status::Built);
    Ok(())
}
