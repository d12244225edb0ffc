// What kind of reply a request gets.

/// What kind of reply a request gets (docs/RULES.md, "Transcripts").
#[derive(Clone, Copy, Debug, PartialEq, Eq)]
pub enum ReplyKind {
    /// What the history makes of it.
    Answer,
    /// 507: the edit was accepted, and could not be kept.
    Lost,
    /// 500: what was seen could not be looked at.
    NoEntry,
    /// 503: there was no memory.
    NoMemory,
}
