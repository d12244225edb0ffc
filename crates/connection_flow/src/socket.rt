// The socket of a client, as a connection knows it.
ghost use Rattle.std.specs.Io.{ReadsAtMost, WritesAtMost};

use std::io;

/// The socket of a client. A call that would wait for the client answers `WouldBlock`; where it was
/// asked to wait, it does so after a few milliseconds.
pub trait Socket {
    /// Takes bytes that have come. 0 is the client's end.
    fn read(&mut self, room: &mut [u8]) -> io::Result<usize>
        ensures { ReadsAtMost result room.new };

    /// Sends as many bytes as go out.
    fn write(&mut self, bytes: &[u8]) -> io::Result<usize>
        ensures { WritesAtMost result bytes.now };

    /// Tells the client that no more bytes come.
    fn end(&self) -> io::Result<()>;
}

/// Whether a call is to be made again when something has happened.
pub fn is_to_wait(fault: &io::Error) -> bool {
    fault.kind() == io::ErrorKind::WouldBlock
}

/// Whether a call is to be made again at once.
pub fn is_to_try_again(fault: &io::Error) -> bool {
    fault.kind() == io::ErrorKind::Interrupted
}
