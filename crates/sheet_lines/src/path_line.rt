// What the line of a path says.
ghost use Rattle.std.specs.Prelude.{◌≡◌};
ghost use Rattle.geda_model.specs.Ranges.{IsContent};
ghost use Rattle.geda_model.specs.Shapes.{ShapeIsInRange};
ghost use Rattle.geda_model.specs.declared.shape.Shape.TheVariants as shapes;

use geda_model::{Block, Fill, Shape, Stroke};
use std::marker::Model;

/// All of a path but its content.
#[derive(Drop)]
pub struct PathLine {
    /// The index of a colour, -1,000,000 to 1,000,000.
    pub color: i32,
    /// How its line is drawn.
    pub stroke: Stroke,
    /// How its area is filled.
    pub fill: Fill,
}

impl Model for PathLine {
    ghost use Rattle.geda_model.specs.Ranges.{IsNumber};
    ghost use Rattle.sheet_lines.specs.steps.Begun.{PathLineData};

    ghost Value = { PathLineData };

    ghost view = { λ p. record { color = p.color; stroke = p.stroke; fill = p.fill } };

    ghost invariant = { λ p. IsNumber p.color };
}

impl PathLine {
    /// The path with its content. It takes no memory.
    pub fn shape(self, content: Block) -> Shape
        requires { IsContent content }
        ensures shape { result ≡ shapes.Path self.color self.stroke self.fill content }
        ensures range { ShapeIsInRange result }
    {
        let PathLine {
            color,
            stroke,
            fill,
        } = self;
        Shape::Path {
            color,
            stroke,
            fill,
            content,
        }
    }
}
