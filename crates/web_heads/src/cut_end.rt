// Where the messages of an input end.

/// Where the messages of an input end (docs/RULES.md, "Messages").
#[derive(Clone, Copy, Debug, PartialEq, Eq)]
pub enum CutEnd {
    /// The input ends between two messages, or the last message says close.
    Closed,
    /// The input ends inside a message.
    CutShort,
    /// No head can come of the bytes, or its Content-Length is bad.
    BadHead,
    /// A head has over 8,192 bytes or 32 headers.
    LargeHead,
    /// A Content-Length is over 4,194,304.
    LargeBody,
    /// A head has a Transfer-Encoding.
    Unsupported,
    /// A head is foreign.
    Foreign,
    /// As many messages as are taken of one input have come.
    Spent,
}
