// The rules of the check.
ghost use Rattle.std.specs.Prelude.{◌≡◌};
ghost use Rattle.drc_findings.specs.Findings.{code_of};

/// A rule of the check (docs/RULES.md, "Findings").
#[derive(Clone, Copy, Debug, PartialEq, Eq)]
pub enum Rule {
    /// Number 1.
    Unnumbered,
    /// Number 2.
    NoRefdes,
    /// Number 3.
    DuplicateRefdes,
    /// Number 4.
    DuplicateSlot,
    /// Number 5.
    BadSlot,
    /// Number 6.
    UnusedSlot,
    /// Number 7.
    UnknownPintype,
    /// Number 8.
    Conflict,
    /// Number 9.
    OnePin,
    /// Number 10.
    UnconnectedPin,
    /// Number 11.
    NotDriven,
    /// Number 12.
    PinOnTwoNets,
    /// Number 13.
    MissingSymbol,
    /// Number 14.
    MissingSource,
    /// Number 15.
    SourceLoop,
    /// Number 16.
    Unreached,
    /// Number 17.
    BadNet,
    /// Number 18.
    SameText,
    /// Number 19.
    NoConnection,
}

impl Rule {
    /// The number of the rule, 1 to 19.
    pub(crate) fn code(self) -> u8
        ensures { result ≡ code_of self }
    {
        match self {
            Rule::Unnumbered => 1,
            Rule::NoRefdes => 2,
            Rule::DuplicateRefdes => 3,
            Rule::DuplicateSlot => 4,
            Rule::BadSlot => 5,
            Rule::UnusedSlot => 6,
            Rule::UnknownPintype => 7,
            Rule::Conflict => 8,
            Rule::OnePin => 9,
            Rule::UnconnectedPin => 10,
            Rule::NotDriven => 11,
            Rule::PinOnTwoNets => 12,
            Rule::MissingSymbol => 13,
            Rule::MissingSource => 14,
            Rule::SourceLoop => 15,
            Rule::Unreached => 16,
            Rule::BadNet => 17,
            Rule::SameText => 18,
            Rule::NoConnection => 19,
        }
    }
}
