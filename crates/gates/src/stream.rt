// A socket of a client: of TCP, or of the Unix domain.
use connection_flow::Socket;
use mio::unix::SourceFd;
use mio::{Interest, Registry, Token};
use std::io;
use std::io::{Read, Write};
use std::net::{Shutdown, TcpStream};
use std::os::fd::{AsRawFd, RawFd};
use std::os::unix::net::UnixStream;
use std::time::Duration;

/// How long a call waits for the client at most, where calls wait.
const WAIT_MILLISECONDS: u64 = 4;

/// A socket of a client. No call waits, but where that was asked for.
#[derive(Drop)]
pub enum Stream {
    /// Of TCP.
    Tcp(TcpStream),
    /// Of the Unix domain.
    Unix(UnixStream),
}

impl Socket for Stream {
    fn read(&mut self, room: &mut [u8]) -> io::Result<usize> {
        match self {
            Stream::Tcp(stream) => stream.read(room),
            Stream::Unix(stream) => stream.read(room),
        }
    }

    fn write(&mut self, bytes: &[u8]) -> io::Result<usize> {
        match self {
            Stream::Tcp(stream) => stream.write(bytes),
            Stream::Unix(stream) => stream.write(bytes),
        }
    }

    fn end(&self) -> io::Result<()> {
        match self {
            Stream::Tcp(stream) => stream.shutdown(Shutdown::Write),
            Stream::Unix(stream) => stream.shutdown(Shutdown::Write),
        }
    }
}

impl Stream {
    // Its number in the process.
    fn descriptor(&self) -> RawFd {
        match self {
            Stream::Tcp(stream) => stream.as_raw_fd(),
            Stream::Unix(stream) => stream.as_raw_fd(),
        }
    }

    /// From now on the system tells when bytes have come or can go out, under this number.
    pub fn register(&self, registry: &Registry, place: usize) -> io::Result<()> {
        let descriptor = self.descriptor();
        let interest = Interest::READABLE | Interest::WRITABLE;
        registry.register(&mut SourceFd(&descriptor), Token(place), interest)
    }

    // From now on the system tells nothing of it.
    fn deregister(&self, registry: &Registry) -> io::Result<()> {
        let descriptor = self.descriptor();
        registry.deregister(&mut SourceFd(&descriptor))
    }

    /// A worker stays with it: the system tells nothing of it, and each call waits for the client, a
    /// few milliseconds at most.
    pub fn stay(&self, registry: &Registry) -> io::Result<()> {
        self.deregister(registry)?;
        self.set_waiting(true)
    }

    /// The worker stays with it no more.
    pub fn leave(&self, registry: &Registry, place: usize) -> io::Result<()> {
        self.set_waiting(false)?;
        self.register(registry, place)
    }

    // From now on each call waits for the client, but a few milliseconds at most; or none waits.
    fn set_waiting(&self, is_waiting: bool) -> io::Result<()> {
        match self {
            Stream::Tcp(stream) => stream.set_nonblocking(!is_waiting),
            Stream::Unix(stream) => stream.set_nonblocking(!is_waiting),
        }
    }

    /// Sets a new one up: no call waits, and what is written goes out at once.
    pub fn set_up(self) -> io::Result<Stream> {
        let longest = Some(Duration::from_millis(WAIT_MILLISECONDS));
        match &self {
            Stream::Tcp(stream) => {
                stream.set_nodelay(true)?;
                stream.set_read_timeout(longest)?;
                stream.set_write_timeout(longest)?;
            }
            Stream::Unix(stream) => {
                stream.set_read_timeout(longest)?;
                stream.set_write_timeout(longest)?;
            }
        }
        self.set_waiting(false)?;
        Ok(self)
    }
}
