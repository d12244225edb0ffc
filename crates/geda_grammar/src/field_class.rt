// What may stand in a field behind the letter.

/// What may stand in a field behind the letter.
#[derive(Clone, Copy, Debug, PartialEq, Eq)]
pub enum Class {
    /// A number at most so far from 0.
    Within(u32),
    /// A number from 0 to this one.
    UpTo(u32),
    /// The number of lines that follow, 1 to 10,000.
    Lines,
    /// 0, 90, 180 or 270.
    Angle,
    /// A word of at most 200 bytes.
    Basename,
}
