// A folder of row files, which one process at a time has.
use crate::files::{Node, create_anew, give_name, node_at, own_fault, require_file, require_links};
use crate::folder::{lock_file, lock_folder, look_through, make_folder};
use crate::names::{next_path, row_path};
use std::alloc::Global;
use std::fs::File;
use std::io::{Read, Write};
use std::random::RandomSource;
use std::rt::Files;
use std::{fs, io};

/// No row file is larger: the message of an entry has at most 4 MiB.
const MOST_BYTES: u64 = 8 << 20;

/// A folder of row files, with the locks on it. They go with this value, or with its process.
#[derive(Drop)]
pub struct Store {
    path: String,
    /// What a row is written to before it gets its own name. No other server has this path.
    next_path: String,
    folder: File,
    node: Node,
    /// The greatest serial of which there was a row file when the folder was taken.
    last: Option<u32>,
    /// The serial and the file of a row that could neither be brought to the disk nor be removed.
    left: Option<(u32, Node)>,
    _lock: File,
}

/// A path of a server's own for what it writes rows to.
fn own_next_path<R: AllocGlobal + RandomSource>(rt: &R, path: &str) -> io::Result<String> {
    let mut own = [0u8; 8];
    rt.fill_bytes(&mut own)?;
    Ok(next_path(rt.alloc(), path, u64::from_le_bytes(own))?)
}

impl Store {
    /// Takes a folder, which is made where it is missing. It fails where another process has it,
    /// or its file system knows no hard links.
    pub fn open<R: Files<File = File> + AllocGlobal + RandomSource>(
        rt: &R,
        path: &str,
    ) -> io::Result<Store> {
        let alloc = rt.alloc();
        make_folder(rt, alloc, path)?;
        let folder = fs::open(rt, path)?;
        lock_folder(&folder)?;
        let lock = lock_file(rt, alloc, path)?;
        let found = look_through(rt, path)?;
        found.clear(rt, alloc, path)?;
        let store = Store {
            path: String::from_str(alloc, path)?,
            next_path: own_next_path(rt, path)?,
            node: Node::of(&folder.metadata()?),
            last: found.last,
            left: None,
            _lock: lock,
            folder,
        };
        store.require_links(rt, alloc)?;
        Ok(store)
    }

    pub fn path(&self) -> &str {
        self.path.as_str()
    }

    /// Fails where rows cannot be put, since no file gets a second name here.
    fn require_links<R: Files>(&self, rt: &R, alloc: Global) -> io::Result<()> {
        let path = self.path.as_str();
        let lock_path = format!(in alloc; "{path}/lock")?;
        require_links(rt, lock_path.as_str(), self.next_path.as_str())
    }

    /// A row file of a later serial was there when the folder was taken.
    pub fn has_later(&self, serial: u32) -> bool {
        self.last > Some(serial)
    }

    /// A row file of this serial, or of a later one, was there when the folder was taken.
    fn has_row(&self, serial: u32) -> bool {
        self.last >= Some(serial)
    }

    /// Fails where the folder that was taken no longer stands at its path.
    fn require_place<R: Files>(&self, rt: &R) -> io::Result<()> {
        if Node::of(&fs::metadata(rt, self.path.as_str())?) == self.node {
            Ok(())
        } else {
            Err(own_fault("another folder stands in the place of the store"))
        }
    }

    /// Writes the bytes of the next row beside the rows, and brings them to the disk.
    fn write_next<R: Files<File = File>>(&self, rt: &R, bytes: &[u8]) -> io::Result<Node> {
        let mut file = create_anew(rt, self.next_path.as_str())?;
        file.write_all(bytes)?;
        file.sync_all()?;
        Ok(Node::of(&file.metadata()?))
    }

    /// Removes the row that was left, where it is of this serial and still there.
    fn remove_left<R: Files>(&mut self, rt: &R, serial: u32, row_path: &str) -> io::Result<()> {
        match self.left {
            Some((left, node)) if left == serial => {
                match node_at(rt, row_path) {
                    Ok(there) if there == node => fs::remove_file(rt, row_path)?,
                    Err(fault) if fault.kind() != io::ErrorKind::NotFound => return Err(fault),
                    _ => {}
                }
                self.left = None;
                Ok(())
            }
            _ => Ok(()),
        }
    }

    /// Brings the name of a row to the disk. Where that fails the row goes, where it can, since it
    /// is not acknowledged.
    fn sync_row<R: Files>(
        &mut self,
        rt: &R,
        serial: u32,
        node: Node,
        row_path: &str,
    ) -> io::Result<()> {
        let synced = self.folder.sync_all();
        if synced.is_err() && fs::remove_file(rt, row_path).is_err() {
            self.left = Some((serial, node));
        }
        synced
    }

    /// Makes a row file of these bytes, which are on the disk under that name when it ends. It
    /// fails where the row is there: another server has written it.
    pub fn put<R: Files<File = File>>(
        &mut self,
        rt: &R,
        alloc: Global,
        serial: u32,
        bytes: &[u8],
    ) -> io::Result<()> {
        let row_path = row_path(alloc, self.path.as_str(), serial)?;
        self.require_place(rt)?;
        self.remove_left(rt, serial, row_path.as_str())?;
        let node = self.write_next(rt, bytes)?;
        let named = give_name(rt, self.next_path.as_str(), node, row_path.as_str());
        // The row keeps the file under its own name.
        let _ = fs::remove_file(rt, self.next_path.as_str());
        named?;
        self.sync_row(rt, serial, node, row_path.as_str())
    }

    /// The bytes of a row file; `None` where there is none, nor was one of a later serial.
    pub fn read<R: Files<File = File>>(
        &self,
        rt: &R,
        alloc: Global,
        serial: u32,
    ) -> io::Result<Option<Vec<u8>>> {
        let row_path = row_path(alloc, self.path.as_str(), serial)?;
        match read_file(rt, alloc, row_path.as_str()) {
            Ok(bytes) => Ok(Some(bytes)),
            Err(fault) if fault.kind() == io::ErrorKind::NotFound && !self.has_row(serial) => {
                Ok(None)
            }
            Err(fault) => Err(fault),
        }
    }

    /// Removes a row file that is cut, so that its serial is free. It fails where a row file of a
    /// later serial was there when the folder was taken.
    pub fn remove_cut<R: Files>(&mut self, rt: &R, alloc: Global, serial: u32) -> io::Result<()> {
        if self.has_later(serial) {
            return Err(own_fault("cut, and later rows are there"));
        }
        let row_path = row_path(alloc, self.path.as_str(), serial)?;
        fs::remove_file(rt, row_path.as_str())?;
        self.last = serial.checked_sub(1);
        Ok(())
    }
}

fn read_file<R: Files<File = File>>(rt: &R, alloc: Global, path: &str) -> io::Result<Vec<u8>> {
    require_file(rt, path)?;
    let mut file = fs::open(rt, path)?;
    if file.metadata()?.len() > MOST_BYTES {
        return Err(own_fault("too large for a row"));
    }
    let mut bytes = Vec::new(alloc);
    file.read_to_end(&mut bytes)?;
    Ok(bytes)
}
