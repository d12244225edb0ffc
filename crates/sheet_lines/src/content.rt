// The content of a text or a path, line by line.
ghost use Rattle.std.specs.Prelude.{◌≡◌, ◌≢◌, ◌==◌, ◌++◌, ◌<◌, ◌≤◌, [], IfOk};
ghost use Rattle.geda_model.specs.Limits.{most_lines};
ghost use Rattle.geda_model.specs.Ranges.{IsContent};
ghost use Rattle.geda_text.specs.Lines.{IsCutLine};
ghost use Rattle.sheet_lines.specs.steps.Contents.{with_line};

use geda_model::Block;
use std::alloc::{AllocError, Global};
use std::marker::Model;

/// A content of which lines are still to come.
#[derive(Drop)]
pub struct Content {
    text: String,
    left: u32,
}

impl Model for Content {
    ghost use Rattle.std.specs.String.{string_bytes};
    ghost use Rattle.sheet_lines.specs.steps.Begun.{ContentData, IsBegun};

    ghost Value = { ContentData };

    ghost view = { λ c. record { content = string_bytes c.text; left = c.left } };

    ghost invariant = { λ c. IsBegun (record { content = string_bytes c.text; left = c.left }) };
}

/// What stands in a text until all its lines are there. It takes no memory.
#[tactic(auto, using(crate::proofs::Contents::no_content))]
pub fn no_content(alloc: Global) -> Block
    ensures none { result ≡ [] }
    ensures range { IsContent result }
{
    Block::from_string(String::new(alloc))
}

impl Content {
    /// A content of so many lines, of which none is there yet. It takes no memory.
    pub fn new(alloc: Global, lines: u32) -> Content
        requires some { 0 < lines }
        requires few { lines ≤ most_lines }
        ensures { result ≡ record { content = []; left = lines } }
    {
        Content {
            text: String::new(alloc),
            left: lines,
        }
    }

    /// Whether the next line is the last one. It takes no memory.
    pub fn is_at_last(&self) -> bool
        ensures { result ≡ (self.now.left == 1) }
    {
        self.left == 1
    }

    /// The content with its last line.
    pub fn whole(self, alloc: Global, line: &str) -> Result<Block, AllocError>
        requires { IsCutLine line.now }
        ensures content { IfOk result (λ b. b ≡ self.content ++ line.now) }
        ensures range { IfOk result IsContent }
    {
        let Content { mut text, .. } = self;
        if text.is_empty() {
            return Ok(Block::new(alloc, line)?);
        }
        text.push_str(line)?;
        Ok(Block::from_string(text))
    }

    /// The content with one more line, behind which others come.
    pub fn with(self, line: &str) -> Result<Content, AllocError>
        requires cut { IsCutLine line.now }
        requires others { self.left ≢ 1 }
        ensures { IfOk result (λ c. c ≡ with_line self line.now) }
    {
        let Content { mut text, left } = self;
        text.push_str(line)?;
        text.push_str("\n")?;
        Ok(Content {
            text,
            left: left - 1,
        })
    }
}
