// Packages of a net list.
use geda_model::{Block, Line};

/// One physical part, or what one of its components says of it.
#[derive(Debug, Drop)]
pub struct Package {
    /// The printed refdes.
    pub refdes: Line,
    /// The attribute `device`; of a package, that of its first component that has it.
    pub device: Option<Block>,
    /// The attribute `value`, likewise.
    pub value: Option<Block>,
    /// The attribute `footprint`, likewise.
    pub footprint: Option<Block>,
}
