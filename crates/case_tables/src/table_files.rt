// The files of a table: those above its first heading stand for all of its cases, the others until
// the next file behind a case.
use crate::case_fault::CaseFault;
use crate::cells::numbered;
use std::alloc::{AllocError, Global};
use std::collections::BTreeMap;

/// A file whose lines are being read.
#[derive(Drop)]
struct OpenFile {
    name: String,
    bytes: Vec<u8>,
}

/// The files of a table.
#[derive(Drop)]
pub struct TableFiles {
    shared: BTreeMap<String, Vec<u8>>,
    own: BTreeMap<String, Vec<u8>>,
    open: Option<OpenFile>,
    is_shared: bool,
    is_used: bool,
}

fn put_line(bytes: &mut Vec<u8>, line: &str) -> Result<(), AllocError> {
    bytes.extend_from_slice(line.as_bytes())?;
    bytes.push(b'\n')?;
    Ok(())
}

fn put_attributes(bytes: &mut Vec<u8>, attributes: &str) -> Result<(), AllocError> {
    for attribute in attributes.split('|') {
        put_line(bytes, "T 0 0 5 10 1 1 0 0 1")?;
        put_line(bytes, attribute)?;
    }
    Ok(())
}

/// Puts a line of a drawing: behind the object stand the attributes that are attached to it, each
/// after a `|`.
fn put_drawn(bytes: &mut Vec<u8>, line: &str) -> Result<(), AllocError> {
    let Some((object, attributes)) = line.split_once('|') else {
        return put_line(bytes, line);
    };
    put_line(bytes, object)?;
    put_line(bytes, "{")?;
    put_attributes(bytes, attributes)?;
    put_line(bytes, "}")
}

impl TableFiles {
    /// No files.
    pub fn new(alloc: Global) -> TableFiles {
        TableFiles {
            shared: BTreeMap::new(alloc),
            own: BTreeMap::new(alloc),
            open: None,
            is_shared: true,
            is_used: false,
        }
    }

    /// Begins a file with these bytes.
    pub fn open(&mut self, alloc: Global, name: &str, bytes: Vec<u8>) -> Result<(), AllocError> {
        self.close()?;
        if self.is_used {
            self.own = BTreeMap::new(alloc);
            self.is_used = false;
        }
        let name = String::from_str(alloc, name)?;
        self.open = Some(OpenFile { name, bytes });
        Ok(())
    }

    /// Begins a file with the bytes of the one of its name that stands for the whole table.
    pub fn open_again(&mut self, alloc: Global, name: &str) -> Result<(), CaseFault> {
        let bytes = self.shared.get(name).ok_or(CaseFault::BadCase)?;
        let bytes = bytes.as_slice().to_vec(alloc)?;
        Ok(self.open(alloc, name, bytes)?)
    }

    /// Puts a line into the file that was begun.
    pub fn put(&mut self, line: &str) -> Result<(), CaseFault> {
        match &mut self.open {
            Some(file) => Ok(put_drawn(&mut file.bytes, line)?),
            None => Err(CaseFault::BadCase),
        }
    }

    /// Puts a line so many times, with the number of the time, from 0, for each `#` in it.
    pub fn put_times(&mut self, alloc: Global, count: u32, line: &str) -> Result<(), CaseFault> {
        for time in 0..count {
            let line = numbered(alloc, line, time)?;
            self.put(line.as_str())?;
        }
        Ok(())
    }

    /// Ends the file that was begun.
    pub fn close(&mut self) -> Result<(), AllocError> {
        if let Some(OpenFile { name, bytes }) = self.open.take() {
            if self.is_shared {
                self.shared.insert(name, bytes)?;
            } else {
                self.own.insert(name, bytes)?;
            }
        }
        Ok(())
    }

    /// Begins a section: the files so far stand for all, where it is the first.
    pub fn begin(&mut self, alloc: Global) -> Result<(), AllocError> {
        self.close()?;
        self.is_shared = false;
        self.own = BTreeMap::new(alloc);
        Ok(())
    }

    /// Tells that a case has used the files.
    pub fn use_up(&mut self) {
        self.is_used = true;
    }

    /// The bytes of a file.
    pub fn find(&self, name: &str) -> Result<&[u8], CaseFault> {
        if let Some(bytes) = self.own.get(name) {
            return Ok(bytes.as_slice());
        }
        match self.shared.get(name) {
            Some(bytes) => Ok(bytes.as_slice()),
            None => Err(CaseFault::BadCase),
        }
    }

    /// The files that stand for the whole table.
    pub fn shared(&self) -> &BTreeMap<String, Vec<u8>> {
        &self.shared
    }

    /// The other files, each of which stands in the place of a shared one of its name.
    pub fn own(&self) -> &BTreeMap<String, Vec<u8>> {
        &self.own
    }
}
