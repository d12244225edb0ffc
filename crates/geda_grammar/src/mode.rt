// Where a block of attached texts may come.
use geda_model::Texts;

/// Whether a block of attached texts may come, or is open.
#[derive(Debug, Drop)]
pub enum Mode<B: Drop> {
    /// No block may come: there is no object, or the last one has had its block.
    Settled,
    /// The last object, for which a block may come.
    Last(B),
    /// The last object, whose block is open, and the texts of the block so far.
    Block(B, Texts),
}
