// The real edges: a folder of files with libraries of symbols, and a stream over a slice.
use geda_model::Name;
use project_files::{DirFolder, Folder, FolderFault};
use sinks::{Sink, SinkFault, StdSink};
use std::alloc::{AllocError, Global};
use std::fs::Permissions;
use std::os::unix::fs::PermissionsExt;
use std::rt::Files;
use std::test::Fail;
use std::{fs, io};

const NAME: &str = "of-the-greatest-size.sch";

const LIBRARIES: [&str; 2] = ["library-a", "library-b"];

fn blank(alloc: Global, size: usize) -> Result<Vec<u8>, AllocError> {
    let mut bytes = Vec::new(alloc);
    for _ in 0..size {
        bytes.push(b' ')?;
    }
    Ok(bytes)
}

#[test]
fn a_file_is_read_up_to_its_greatest_size(rt: HostRuntime) -> Result<(), Fail> {
    let alloc = rt.alloc();
    let mut folder = DirFolder::new(&rt, String::new(alloc));
    for (size, wanted) in [(4_194_304, 4_194_304), (4_194_306, 4_194_305)] {
        let bytes = blank(alloc, size)?;
        fs::write(&rt, NAME, bytes.as_slice())?;
        let read = folder.read(alloc, NAME);
        fs::remove_file(&rt, NAME)?;
        let length = read.map(|file| file.map(|bytes| bytes.len()));
        assert_eq!(rt; length, Ok(Some(wanted)), "{size}");
    }
    Ok(())
}

#[test]
fn what_is_no_file_is_told_from_none(rt: HostRuntime) -> Result<(), Fail> {
    let alloc = rt.alloc();
    let name = "no-file.sch";
    let mut folder = DirFolder::new(&rt, String::new(alloc));
    assert_eq!(rt; folder.read(alloc, name), Ok(None));
    fs::create_dir(&rt, name)?;
    let read = folder.read(alloc, name);
    fs::remove_dir(&rt, name)?;
    assert_eq!(rt; read, Err(FolderFault::Failed));
    Ok(())
}

/// Two libraries, and a symbol beside them that one of them has too.
fn put_libraries<R: Files>(rt: &R) -> io::Result<()> {
    for library in LIBRARIES {
        fs::create_dir(rt, library)?;
    }
    let files = [
        ("beside.sym", "beside"),
        ("library-a/beside.sym", "a"),
        ("library-a/both.sym", "a"),
        ("library-b/both.sym", "bb"),
        ("library-b/one.sym", "bb"),
        ("library-b/one.sch", "bb"),
    ];
    for (path, text) in files {
        fs::write(rt, path, text.as_bytes())?;
    }
    Ok(())
}

#[test]
fn a_symbol_comes_from_the_first_library_that_has_it(rt: HostRuntime) -> Result<(), Fail> {
    let alloc = rt.alloc();
    put_libraries(&rt)?;
    let libraries = String::from_str(alloc, "library-none::library-a:library-b")?;
    let mut folder = DirFolder::new(&rt, libraries);
    let mut lengths = Vec::new(alloc);
    for name in ["beside.sym", "both.sym", "one.sym", "one.sch", "none.sym"] {
        let read = folder.read(alloc, name);
        lengths.push(read.map(|file| file.map(|bytes| bytes.len())))?;
    }
    let alone = DirFolder::new(&rt, String::new(alloc)).read(alloc, "both.sym");
    fs::remove_file(&rt, "beside.sym")?;
    for library in LIBRARIES {
        fs::remove_dir_all(&rt, library)?;
    }
    let wanted = [Ok(Some(6)), Ok(Some(1)), Ok(Some(2)), Ok(None), Ok(None)];
    assert_eq!(rt; lengths.as_slice(), wanted.as_slice());
    assert_eq!(rt; alone, Ok(None));
    Ok(())
}

#[test]
fn a_file_is_replaced_whole(rt: HostRuntime) -> Result<(), Fail> {
    let alloc = rt.alloc();
    let mut folder = DirFolder::new(&rt, String::new(alloc));
    let Ok(name) = Name::new(alloc, "written.sch") else {
        assert!(rt; false, "a name");
        return Ok(());
    };
    fs::write(&rt, name.as_str(), &b"old"[..])?;
    fs::set_permissions(&rt, name.as_str(), Permissions::from_mode(0o600))?;
    let written = folder.write(alloc, name.as_str(), b"new");
    let bytes = fs::read(&rt, name.as_str())?;
    let mode = fs::metadata(&rt, name.as_str())?.permissions().mode();
    fs::remove_file(&rt, name.as_str())?;
    assert_eq!(rt; written, Ok(()));
    assert_eq!(rt; bytes.as_slice(), b"new".as_slice());
    assert_eq!(rt; mode & 0o777, 0o600);
    assert_eq!(rt; fs::exists(&rt, ".written.sch.gafd1")?, false);
    Ok(())
}

#[test]
fn what_is_no_file_is_not_replaced(rt: HostRuntime) -> Result<(), Fail> {
    let alloc = rt.alloc();
    let mut folder = DirFolder::new(&rt, String::new(alloc));
    let Ok(name) = Name::new(alloc, "folder.sch") else {
        assert!(rt; false, "a name");
        return Ok(());
    };
    fs::create_dir(&rt, name.as_str())?;
    let written = folder.write(alloc, name.as_str(), b"new");
    fs::remove_dir(&rt, name.as_str())?;
    assert_eq!(rt; written, Err(FolderFault::Failed));
    Ok(())
}

#[test]
fn a_stream_without_room_fails(rt: HostRuntime) {
    let mut bytes = [0; 3];
    let mut stream = StdSink::new(&mut bytes[..]);
    assert_eq!(rt; stream.write(b"ab"), Ok(()));
    assert_eq!(rt; stream.write(b"cd"), Err(SinkFault::Failed));
}
