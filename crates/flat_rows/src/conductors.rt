// Pins above ports.
use geda_model::Block;

/// Pins of a component that leads down to a sheet below: those with one label.
#[derive(Debug, Drop)]
pub struct PortPins {
    /// The place of the component's instance among all instances, counted from 0.
    pub instance: usize,
    /// The id of the component.
    pub id: u32,
    /// The label.
    pub label: Block,
}
