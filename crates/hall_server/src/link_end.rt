// How the connection of a link ended.

/// How a connection ended (docs/RULES.md, "Ends of connections").
#[derive(Clone, Copy, Debug, PartialEq, Eq)]
pub enum LinkEnd {
    /// The input ended between two messages, or the request that was answered last said close.
    Closed,
    /// The input ended inside a message.
    CutShort,
    /// 400 was sent: no head can come of the bytes, or a Content-Length is bad.
    BadHead,
    /// 431 or 413 was sent: a head has over 8,192 bytes or 32 headers, or a Content-Length is over
    /// 4,194,304.
    TooLarge,
    /// 501 was sent: a head has a Transfer-Encoding.
    Unsupported,
    /// 403 was sent: a head is foreign.
    Foreign,
    /// A read failed, and the link's count of such rose.
    ReadFault,
    /// A write failed, and the link's count of such rose.
    WriteFault,
    /// 10,000 requests were answered, and the last did not say close.
    Spent,
    /// There was no memory for the connection; nothing was read.
    NoMemory,
}
