// The socket that clients come to: of TCP, or of the Unix domain.
use crate::stream::Stream;
use std::fs::Files;
use std::net::{Net, TcpListener, TcpStream};
use std::os::fd::{AsRawFd, RawFd};
use std::os::unix::fs::FileTypeExt;
use std::os::unix::net::{UnixListener, UnixStream};
use std::{fs, io};

/// What an address of the Unix domain begins with.
const UNIX: &str = "unix:";

/// The socket that clients come to. No call waits.
#[derive(Drop)]
pub enum Listener {
    /// Of TCP.
    Tcp(TcpListener),
    /// Of the Unix domain.
    Unix(UnixListener),
}

/// Whether a socket lies at this path on which nobody listens any more.
fn is_left_over<R: Net + Files>(rt: &R, path: &str) -> bool {
    let Ok(found) = fs::symlink_metadata(rt, path) else {
        return false;
    };
    if !found.file_type().is_socket() {
        return false;
    }
    match UnixStream::connect(rt, path) {
        Ok(_) => false,
        Err(fault) => fault.kind() == io::ErrorKind::ConnectionRefused,
    }
}

/// Listens at a path. A socket that a server left there which is gone is removed; what else lies
/// there stays, and nothing listens then.
fn bind_path<R: Net + Files>(rt: &R, path: &str) -> io::Result<UnixListener> {
    if is_left_over(rt, path) {
        fs::remove_file(rt, path)?;
    }
    let listener = UnixListener::bind(rt, path)?;
    listener.set_nonblocking(true)?;
    Ok(listener)
}

impl Listener {
    /// Listens at an address: `unix:` and a path, or an IP address or the name of a host, `:` and a
    /// port. Nobody may listen there.
    pub fn bind<R: Net<Listener = TcpListener, Stream = TcpStream> + Files>(
        rt: &R,
        address: &str,
    ) -> io::Result<Listener> {
        match address.strip_prefix(UNIX) {
            Some(path) => Ok(Listener::Unix(bind_path(rt, path)?)),
            None => {
                let listener = TcpListener::bind(rt, address)?;
                listener.set_nonblocking(true)?;
                Ok(Listener::Tcp(listener))
            }
        }
    }

    /// The next client that has come.
    pub fn accept(&self) -> io::Result<Stream> {
        let stream = match self {
            Listener::Tcp(listener) => {
                let (stream, _) = listener.accept()?;
                Stream::Tcp(stream)
            }
            Listener::Unix(listener) => {
                let (stream, _) = listener.accept()?;
                Stream::Unix(stream)
            }
        };
        stream.set_up()
    }

    /// Its number in the process.
    pub fn descriptor(&self) -> RawFd {
        match self {
            Listener::Tcp(listener) => listener.as_raw_fd(),
            Listener::Unix(listener) => listener.as_raw_fd(),
        }
    }
}
