// How far the last one of a list is.
ghost use Rattle.std.specs.Prelude.{◌≡◌};
ghost use Rattle.geda_read.specs.steps.Levels.{is_bare, is_open};

/// How far the last one of a list that is being read is.
#[derive(Clone, Copy)]
pub enum Tail {
    /// No block may come: there is none, or the last one has had its block.
    Done,
    /// A block of attached texts may come for it.
    Bare,
    /// Its block is open.
    Open,
}

impl Tail {
    /// Whether a block may come.
    pub fn is_bare(self) -> bool
        ensures { result ≡ is_bare self }
    {
        matches!(self, Tail::Bare)
    }

    /// Whether a block is open.
    pub fn is_open(self) -> bool
        ensures { result ≡ is_open self }
    {
        matches!(self, Tail::Open)
    }
}
