// Connections in memory that were served.
use hall_server::LinkEnd;
use std::alloc::{AllocError, Global};
use web_heads::MemoryLink;

/// How many bytes go out on a connection at most.
const ROOM: usize = 2_000_000;

/// A connection that was served.
#[derive(Drop)]
pub struct Connection {
    /// How it ended.
    pub end: LinkEnd,
    /// What it read and wrote.
    pub link: MemoryLink,
}

/// A connection on which these bytes come in. The calls of these numbers fail.
pub fn link_of(alloc: Global, input: Vec<u8>, failing: Vec<u64>) -> Result<MemoryLink, AllocError> {
    MemoryLink::new(alloc, input, ROOM, failing)
}

impl Connection {
    /// What went out.
    pub fn written(&self) -> &[u8] {
        self.link.written()
    }

    /// The name of its end.
    pub fn end_name(&self) -> &'static str {
        match self.end {
            LinkEnd::Closed => "Closed",
            LinkEnd::CutShort => "CutShort",
            LinkEnd::BadHead => "BadHead",
            LinkEnd::TooLarge => "TooLarge",
            LinkEnd::Unsupported => "Unsupported",
            LinkEnd::Foreign => "Foreign",
            LinkEnd::ReadFault => "ReadFault",
            LinkEnd::WriteFault => "WriteFault",
            LinkEnd::Spent => "Spent",
            LinkEnd::NoMemory => "NoMemory",
        }
    }
}
