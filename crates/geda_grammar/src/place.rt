// Where a row of a sheet stands.
use crate::mode::Mode;
use crate::row::ComponentLine;
use geda_model::{Body, Objects, Parts, Shape};

/// What is there of a sheet, and where its next row stands.
#[derive(Debug, Drop)]
pub enum Place {
    /// Among the objects: those before the last, and whether a block may come for the last.
    Objects(Objects, Mode<Body>),
    /// Behind the line of an embedded component, whose `[` comes next: the objects before it.
    Waiting(Objects, ComponentLine),
    /// In an embedded symbol: the objects before its component, the component's line, the parts
    /// before the last, and whether a block may come for the last.
    Inside(Objects, ComponentLine, Parts, Mode<Shape>),
}
