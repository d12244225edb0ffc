// What the line of a picture says.
ghost use Rattle.std.specs.Prelude.{◌≡◌};
ghost use Rattle.geda_model.specs.Shapes.{IsEmbeddedData, ShapeIsInRange};
ghost use Rattle.geda_grammar.specs.steps.Following.{picture};

use geda_model::{Block, Line, Shape};
use std::marker::Model;

/// All of a picture but the name of its file and its data.
#[derive(Drop)]
pub struct PictureLine {
    /// Across, in mils, -200,000 to 200,000.
    pub x: i32,
    /// Up, in mils, -200,000 to 200,000.
    pub y: i32,
    /// In mils, -1,000,000 to 1,000,000.
    pub width: i32,
    /// In mils, -1,000,000 to 1,000,000.
    pub height: i32,
    /// In degrees: 0, 90, 180 or 270.
    pub angle: u16,
    /// Whether it is mirrored.
    pub mirrored: bool,
}

impl Model for PictureLine {
    ghost use Rattle.geda_grammar.specs.steps.Following.{PictureLineData};
    ghost use Rattle.sheet_lines.specs.steps.Begun.{IsPictureLine};

    ghost Value = { PictureLineData };

    ghost view = { λ p. record { x = p.x; y = p.y; width = p.width; height = p.height; angle = p.angle; mirrored = p.mirrored } };

    ghost invariant = { λ p. IsPictureLine (record { x = p.x; y = p.y; width = p.width; height = p.height; angle = p.angle; mirrored = p.mirrored }) };
}

impl PictureLine {
    /// The picture with the name of its file, and with its data where it is embedded. It takes no
    /// memory.
    pub fn shape(self, file: Line, embedded: Option<Block>) -> Shape
        requires { IsEmbeddedData embedded }
        ensures shape { result ≡ picture self file embedded }
        ensures range { ShapeIsInRange result }
    {
        let PictureLine {
            x,
            y,
            width,
            height,
            angle,
            mirrored,
        } = self;
        Shape::Picture {
            x,
            y,
            width,
            height,
            angle,
            mirrored,
            file,
            embedded,
        }
    }
}
