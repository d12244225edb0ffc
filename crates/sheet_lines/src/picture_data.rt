// The data of an embedded picture, line by line.
ghost use Rattle.std.specs.Prelude.{◌≡◌, ◌≢◌, ◌++◌, [], IfOk, codes};
ghost use Rattle.geda_defs.specs.Lines.{ended};
ghost use Rattle.geda_model.specs.Ranges.{IsPictureData};
ghost use Rattle.geda_text.specs.Lines.{IsCutLine};

use geda_model::Block;
use std::alloc::{AllocError, Global};
use std::marker::Model;

/// The lines so far, each with its LF.
#[derive(Drop)]
pub struct PictureData {
    lines: String,
}

impl Model for PictureData {
    ghost use Rattle.geda_model.specs.Ranges.{IsPictureData};
    ghost use Rattle.std.specs.Prelude.{List, ℕ};
    ghost use Rattle.std.specs.String.{string_bytes};

    ghost Value = { List ℕ };

    ghost view = { λ d. string_bytes d.lines };

    ghost invariant = { λ d. IsPictureData (string_bytes d.lines) };
}

impl PictureData {
    /// No line. It takes no memory.
    pub fn new(alloc: Global) -> PictureData
        ensures { result ≡ [] }
    {
        PictureData {
            lines: String::new(alloc),
        }
    }

    /// The data with one more line, which is no single `.`.
    pub fn with(self, line: &str) -> Result<PictureData, AllocError>
        requires cut { IsCutLine line.now }
        requires other { line.now ≢ codes "." }
        ensures { IfOk result (λ d. d ≡ self ++ ended line.now) }
    {
        let PictureData { mut lines } = self;
        lines.push_str(line)?;
        lines.push_str("\n")?;
        Ok(PictureData { lines })
    }

    /// All lines. It takes no memory.
    pub fn block(self) -> Block
        ensures same { result ≡ self }
        ensures data { IsPictureData result }
    {
        Block::from_string(self.lines)
    }
}
