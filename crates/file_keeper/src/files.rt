// What a store asks of the file system besides reading and writing.
use std::fs::{File, Metadata};
use std::os::unix::fs::MetadataExt;
use std::rt::Files;
use std::{fs, io};

/// What the system answers where no file has a second name, as on FAT (`EPERM`).
const NO_LINKS: i32 = 1;

/// A fault that no call of the system told.
pub fn own_fault(text: &str) -> io::Error {
    io::Error::new(io::ErrorKind::InvalidData, text)
}

/// Device and inode of a file or a folder.
#[derive(Clone, Copy, PartialEq, Eq)]
pub struct Node {
    device: u64,
    inode: u64,
}

impl Node {
    pub fn of(metadata: &Metadata) -> Node {
        Node {
            device: metadata.dev(),
            inode: metadata.ino(),
        }
    }
}

/// What stands at this path itself; a link is not followed.
pub fn node_at<R: Files>(rt: &R, path: &str) -> io::Result<Node> {
    Ok(Node::of(&fs::symlink_metadata(rt, path)?))
}

/// Fails where something other than a file has this path: to open a pipe would wait.
pub fn require_file<R: Files>(rt: &R, path: &str) -> io::Result<()> {
    if fs::metadata(rt, path)?.is_file() {
        Ok(())
    } else {
        Err(own_fault("not a file"))
    }
}

/// Fails where something other than a file was found.
pub fn require_file_or_none(found: io::Result<Metadata>) -> io::Result<()> {
    match found {
        Ok(metadata) if metadata.is_file() => Ok(()),
        Ok(_) => Err(own_fault("not a file")),
        Err(fault) if fault.kind() == io::ErrorKind::NotFound => Ok(()),
        Err(fault) => Err(fault),
    }
}

/// Fails where the file system knows no second name of a file, by trying one that is free.
pub fn require_links<R: Files>(rt: &R, path: &str, free: &str) -> io::Result<()> {
    match fs::hard_link(rt, path, free) {
        Ok(()) => fs::remove_file(rt, free),
        Err(fault) if has_no_links(&fault) => {
            Err(own_fault("the file system knows no hard links"))
        }
        // Whatever else it was, as a full disk, a put meets it and tells.
        Err(_) => Ok(()),
    }
}

fn has_no_links(fault: &io::Error) -> bool {
    fault.kind() == io::ErrorKind::Unsupported || fault.raw_os_error() == Some(NO_LINKS)
}

/// Makes a file in the place of one that may have this path. A link is not followed.
pub fn create_anew<R: Files<File = File>>(rt: &R, path: &str) -> io::Result<File> {
    match File::create_new(rt, path) {
        Err(fault) if fault.kind() == io::ErrorKind::AlreadyExists => {
            fs::remove_file(rt, path)?;
            File::create_new(rt, path)
        }
        made => made,
    }
}

/// Gives a file, whose node this is, a second name. It has that name too where the call fails, and
/// the name leads to this very file: a network file system may ask twice, or lose its answer.
pub fn give_name<R: Files>(rt: &R, path: &str, node: Node, name: &str) -> io::Result<()> {
    let Err(fault) = fs::hard_link(rt, path, name) else {
        return Ok(());
    };
    match node_at(rt, name) {
        Ok(there) if there == node => Ok(()),
        Ok(_) => Err(own_fault("another server has written it")),
        Err(_) => Err(fault),
    }
}
