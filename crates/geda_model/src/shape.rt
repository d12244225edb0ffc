// What is drawn, on a sheet or in a symbol.
use crate::text::{Block, Text, Texts};
use crate::word::Line;
use std::alloc::{AllocError, Global};
use std::marker::Model;

/// How a line is drawn. Each number is -1,000,000 to 1,000,000.
#[derive(Clone, Copy, Debug, PartialEq, Eq)]
pub struct Stroke {
    /// In mils.
    pub width: i32,
    /// How a line ends.
    pub cap: i32,
    /// How a line is broken.
    pub dash: i32,
    /// In mils, -1 where there are no dashes.
    pub dash_length: i32,
    /// In mils, -1 where there are no gaps.
    pub dash_space: i32,
}

impl Model for Stroke {
    ghost use Rattle.geda_model.specs.Data.{StrokeData};
    ghost use Rattle.geda_model.specs.Ranges.{IsStroke};

    ghost Value = { StrokeData };

    ghost view = { λ s. record { width = s.width; cap = s.cap; dash = s.dash; dash_length = s.dash_length; dash_space = s.dash_space } };

    ghost invariant = { λ s. IsStroke (record { width = s.width; cap = s.cap; dash = s.dash; dash_length = s.dash_length; dash_space = s.dash_space }) };

    ghost inverse = { λ s. record { width = s.width; cap = s.cap; dash = s.dash; dash_length = s.dash_length; dash_space = s.dash_space } };
}

/// How an area is filled. Each number is -1,000,000 to 1,000,000.
#[derive(Clone, Copy, Debug, PartialEq, Eq)]
pub struct Fill {
    /// Which kind of filling.
    pub sort: i32,
    /// In mils.
    pub width: i32,
    /// In degrees.
    pub angle1: i32,
    /// In mils.
    pub pitch1: i32,
    /// In degrees.
    pub angle2: i32,
    /// In mils.
    pub pitch2: i32,
}

impl Model for Fill {
    ghost use Rattle.geda_model.specs.Data.{FillData};
    ghost use Rattle.geda_model.specs.Ranges.{IsFill};

    ghost Value = { FillData };

    ghost view = { λ f. record { sort = f.sort; width = f.width; angle1 = f.angle1; pitch1 = f.pitch1; angle2 = f.angle2; pitch2 = f.pitch2 } };

    ghost invariant = { λ f. IsFill (record { sort = f.sort; width = f.width; angle1 = f.angle1; pitch1 = f.pitch1; angle2 = f.angle2; pitch2 = f.pitch2 }) };

    ghost inverse = { λ f. record { sort = f.sort; width = f.width; angle1 = f.angle1; pitch1 = f.pitch1; angle2 = f.angle2; pitch2 = f.pitch2 } };
}

/// What is drawn. Points are in mils, -200,000 to 200,000; every other number is -1,000,000 to
/// 1,000,000 where nothing else is said.
#[derive(Clone, Debug, Drop)]
pub enum Shape {
    /// A line that joins nothing, letter `L`.
    Straight {
        x1: i32,
        y1: i32,
        x2: i32,
        y2: i32,
        color: i32,
        stroke: Stroke,
    },
    /// A picture from a file, letter `G`. `angle` is 0, 90, 180 or 270. `embedded` has its data,
    /// lines that each end in LF and of which none is a single `.`.
    Picture {
        x: i32,
        y: i32,
        width: i32,
        height: i32,
        angle: u16,
        mirrored: bool,
        file: Line,
        embedded: Option<Block>,
    },
    /// A box, letter `B`.
    Rect {
        x: i32,
        y: i32,
        width: i32,
        height: i32,
        color: i32,
        stroke: Stroke,
        fill: Fill,
    },
    /// A circle, letter `V`.
    Circle {
        x: i32,
        y: i32,
        radius: i32,
        color: i32,
        stroke: Stroke,
        fill: Fill,
    },
    /// An arc, letter `A`. `start` and `sweep` are in degrees.
    Arc {
        x: i32,
        y: i32,
        radius: i32,
        start: i32,
        sweep: i32,
        color: i32,
        stroke: Stroke,
    },
    /// A text, letter `T`.
    Text(Text),
    /// A net segment, letter `N`: what joins.
    Net {
        x1: i32,
        y1: i32,
        x2: i32,
        y2: i32,
        color: i32,
    },
    /// A bus, letter `U`. `ripper` is -1 to 1.
    Bus {
        x1: i32,
        y1: i32,
        x2: i32,
        y2: i32,
        color: i32,
        ripper: i8,
    },
    /// A pin, letter `P`; `bus` tells a bus pin from a net pin. Its active end is (x1,y1) where
    /// `whichend` is 0 and (x2,y2) where it is 1.
    Pin {
        x1: i32,
        y1: i32,
        x2: i32,
        y2: i32,
        color: i32,
        bus: bool,
        whichend: u8,
    },
    /// A path, letter `H`, whose data is kept unread: 1 to 10,000 lines, of which none ends in CR.
    Path {
        color: i32,
        stroke: Stroke,
        fill: Fill,
        content: Block,
    },
}

impl Shape {
    ghost use Rattle.std.specs.Prelude.{◌≡◌, IfOk};

    /// An equal shape.
    pub fn copy(&self) -> Result<Shape, AllocError>
        ensures { IfOk result (λ shape. shape ≡ self.now) }
    {
        self.clone()
    }
}

/// A shape of a symbol, with its attached texts.
#[derive(Debug, Drop)]
pub struct Part {
    /// What is drawn.
    pub shape: Shape,
    /// The texts attached to it.
    pub attrs: Texts,
}

impl Model for Part {
    ghost use Rattle.geda_model.specs.Shapes.{PartData, PartIsInRange};

    ghost Value = { PartData };

    ghost view = { λ p. record { shape = p.shape; attrs = p.attrs } };

    ghost invariant = { λ p. PartIsInRange (record { shape = p.shape; attrs = p.attrs }) };
}

impl Clone for Part {
    ghost use Rattle.std.specs.Prelude.{◌≡◌};

    ghost is_clone = { λ x y. y ≡ x };

    fn clone(&self) -> Result<Part, AllocError> {
        let shape = self.shape.copy()?;
        let attrs = self.attrs.clone()?;
        Ok(Part { shape, attrs })
    }
}

impl Part {
    ghost use Rattle.std.specs.Prelude.{◌≡◌, OnErr, OnOk};
    ghost use Rattle.geda_model.specs.Shapes.{PartIsInRange, part_with};

    fn attach(&mut self, text: Text) -> Result<(), AllocError>
        ensures ok { OnOk result (self.new ≡ part_with text self.old) }
        ensures err { OnErr result (self.new ≡ self.old) }
        ensures range { PartIsInRange self.new }
    {
        self.attrs.push(text)
    }
}

/// The parts of a symbol in order, each in its ranges, at most 4,294,967,295.
#[derive(Debug, Drop)]
pub struct Parts {
    list: Vec<Part>,
}

impl Model for Parts {
    ghost use Rattle.std.specs.Prelude.{List};
    ghost use Rattle.geda_model.specs.Shapes.{ArePartsInRange, PartData};

    ghost Value = { List PartData };

    ghost view = { λ p. p.list.items };

    ghost invariant = { λ p. ArePartsInRange p.list.items };
}

impl Parts {
    ghost use Rattle.std.specs.Prelude.{◌≡◌, ◌<◌, ◌++◌, ◌∷◌, [], OnErr, OnOk, length};
    ghost use Rattle.geda_model.specs.Shapes.{ArePartsInRange, part_with, with_last};

    /// No part. It takes no memory.
    pub fn new(alloc: Global) -> Parts
        ensures { result ≡ [] }
    {
        Parts {
            list: Vec::new(alloc),
        }
    }

    /// Puts a part behind the others, which are fewer than 4,294,967,295. On want of memory they
    /// stay as they are.
    pub fn push(&mut self, part: Part) -> Result<(), AllocError>
        requires { length self.old < 4294967295 }
        ensures ok { OnOk result (self.new ≡ self.old ++ part ∷ []) }
        ensures err { OnErr result (self.new ≡ self.old) }
    {
        self.list.push(part)?;
        Ok(())
    }

    /// Puts a text behind those that are attached to the last part; where there is no part nothing
    /// changes. On want of memory all stay as they are.
    pub fn attach(&mut self, text: Text) -> Result<(), AllocError>
        ensures ok { OnOk result (self.new ≡ with_last (part_with text) self.old) }
        ensures err { OnErr result (self.new ≡ self.old) }
    {
        match self.list.last_mut() {
            Some(part) => part.attach(text),
            None => Ok(()),
        }
    }

    /// The parts, in order. It takes no memory.
    pub fn as_slice(&self) -> &[Part]
        ensures parts { result.now ≡ self.now }
        ensures in_range { ArePartsInRange self.now }
    {
        self.list.as_slice()
    }
}

impl Clone for Parts {
    ghost use Rattle.std.specs.Prelude.{◌≡◌};

    ghost is_clone = { λ x y. y ≡ x };

    fn clone(&self) -> Result<Parts, AllocError> {
        let list = self.list.clone()?;
        Ok(Parts { list })
    }
}
