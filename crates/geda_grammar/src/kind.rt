// Why a file is refused.
ghost use Rattle.std.specs.Prelude.{◌≡◌};
ghost use Rattle.geda_grammar.specs.KindNames.{read_kind_name};

/// Why a file is refused at a line. Rule: docs/RULES.md, "Faults".
///
/// Where several hold at one line, the first of this order counts: `TooLarge`, `NotUtf8`,
/// `NoVersion`, `BadFormat`, `NotAttribute`, `StrayBracket`, `UnknownLetter`, `Nested`,
/// `FieldCount`, then the first wrong field from the left.
#[derive(Clone, Copy, Debug, PartialEq, Eq)]
pub enum ReadKind {
    /// Line 1 has not `v` as its first field, or there is no line at all.
    NoVersion,
    /// Line 1 begins with `v`, and is not a version line.
    BadFormat,
    /// The first field is neither a letter of the table nor a bracket.
    UnknownLetter,
    /// The line has more or fewer fields than its letter takes.
    FieldCount,
    /// A field is not a number.
    BadNumber,
    /// A number is outside its class, or a basename is not a word of at most 200 bytes.
    OutOfRange,
    /// An angle is not 0, 90, 180 or 270.
    BadAngle,
    /// The lines end where one more is needed. The line is the one after the last.
    CutShort,
    /// A bracket stands where it may not, or no `[` stands where one must.
    StrayBracket,
    /// In a block, neither a text nor the end of the block.
    NotAttribute,
    /// A component in a symbol.
    Nested,
    /// The line is not UTF-8.
    NotUtf8,
    /// Too many bytes (then at line 1), or one object more than may be there.
    TooLarge,
}

impl ReadKind {
    /// The name of the kind, as it prints. It takes no memory.
    pub fn name(self) -> &'static str
        ensures { result.now ≡ read_kind_name self }
    {
        match self {
            ReadKind::NoVersion => "NoVersion",
            ReadKind::BadFormat => "BadFormat",
            ReadKind::UnknownLetter => "UnknownLetter",
            ReadKind::FieldCount => "FieldCount",
            ReadKind::BadNumber => "BadNumber",
            ReadKind::OutOfRange => "OutOfRange",
            ReadKind::BadAngle => "BadAngle",
            ReadKind::CutShort => "CutShort",
            ReadKind::StrayBracket => "StrayBracket",
            ReadKind::NotAttribute => "NotAttribute",
            ReadKind::Nested => "Nested",
            ReadKind::NotUtf8 => "NotUtf8",
            ReadKind::TooLarge => "TooLarge",
        }
    }
}
