// The parts of a symbol that is being read. Each stands in their list at once, and a block's texts
// go to the last one there. What moves a whole part is inlined, since LLVM then moves it once.
ghost use Rattle.std.specs.Prelude.{◌≡◌, ◌<◌, [], OnOk, length};
ghost use Rattle.geda_model.specs.Limits.{most_objects};
ghost use Rattle.geda_model.specs.Shapes.{ShapeIsInRange};
ghost use Rattle.geda_grammar.specs.declared.mode.Mode.TheVariants as modes;
ghost use Rattle.geda_grammar.specs.steps.Levels as levels;
ghost use Rattle.geda_grammar.specs.steps.Sheets.{make_part, part_step};
ghost use Rattle.geda_read.specs.steps.Levels.{PartsStand, Takes};
ghost use Rattle.geda_read.specs.steps.Staying.{Stays};
ghost use Rattle.sheet_lines.specs.SheetLines.{RowIsInRange};

use crate::refusal::Refusal;
use crate::tail::Tail;
use geda_grammar::Row;
use geda_model::{MOST_OBJECTS, Part, Parts, Shape, Texts};
use std::alloc::{AllocError, Global};
use std::marker::Model;

/// The parts that are there, and how far the last one is.
#[derive(Drop)]
pub struct OpenParts {
    pub items: Parts,
    pub tail: Tail,
}

impl Model for OpenParts {
    ghost use Rattle.geda_grammar.specs.steps.Levels.{Level};
    ghost use Rattle.geda_model.specs.Shapes.{PartData};
    ghost use Rattle.geda_model.specs.declared.shape.Shape.{Shape};
    ghost use Rattle.geda_read.specs.steps.Levels.{PartsStand, parts_level};

    ghost Value = { Level PartData Shape };

    ghost view = { λ l. parts_level l.items l.tail };

    ghost invariant = { λ l. PartsStand l.items l.tail };
}

impl OpenParts {
    /// No part. It takes no memory.
    #[tactic(auto, unfolding(crate::specs::steps::Levels::level_of))]
    pub fn new(alloc: Global) -> OpenParts
        ensures { result ≡ record { kept = []; mode = modes.Settled } }
    {
        OpenParts {
            items: Parts::new(alloc),
            tail: Tail::Done,
        }
    }

    /// Ends the last part, where one more has room and no block is open.
    #[inline(always)]
    fn settle(&mut self) -> Result<(), Refusal>
        ensures taken { Takes (λ _. self.new.kept) result
            (levels.room make_part most_objects self.old.kept self.old.mode) }
        ensures few { OnOk result (length self.new.kept < most_objects) }
        ensures settled { OnOk result (self.new.mode ≡ modes.Settled) }
        ensures stays { Stays result self.old self.new }
    {
        if self.tail.is_open() {
            return Err(Refusal::Stray);
        }
        if self.items.as_slice().len() >= MOST_OBJECTS {
            return Err(Refusal::Stray);
        }
        self.tail = Tail::Done;
        Ok(())
    }

    /// Puts a part, for which a block may come, behind the others.
    #[inline(always)]
    fn add(&mut self, alloc: Global, shape: Shape) -> Result<(), AllocError>
        requires settled { self.old.mode ≡ modes.Settled }
        requires few { length self.old.kept < most_objects }
        requires range { ShapeIsInRange shape }
        ensures { OnOk result (self.new ≡ levels.begun shape self.old.kept) }
    {
        let attrs = Texts::new(alloc);
        self.items.push(Part { shape, attrs })?;
        self.tail = Tail::Bare;
        Ok(())
    }

    /// Takes one part more, for which a block may come.
    #[inline(always)]
    fn push(&mut self, alloc: Global, shape: Shape) -> Result<(), Refusal>
        requires range { ShapeIsInRange shape }
        ensures taken { Takes (λ _. self.new) result
            (levels.push make_part most_objects shape self.old.kept self.old.mode) }
        ensures stays { Stays result self.old self.new }
    {
        self.settle()?;
        self.add(alloc, shape)?;
        Ok(())
    }

    #[inline(always)]
    fn put(&mut self, alloc: Global, shape: Shape) -> Result<(), Refusal>
        requires range { ShapeIsInRange shape }
        ensures taken { Takes (λ _. self.new) result
            (levels.put make_part (λ s. s) most_objects shape self.old.kept self.old.mode) }
        ensures stays { Stays result self.old self.new }
    {
        if self.tail.is_open() {
            let Shape::Text(text) = shape else {
                return Err(Refusal::Stray);
            };
            self.items.attach(text)?;
            return Ok(());
        }
        self.push(alloc, shape)
    }

    fn open_block(&mut self) -> Result<(), Refusal>
        ensures taken { Takes (λ _. self.new) result
            (levels.open_block self.old.kept self.old.mode) }
        ensures stays { Stays result self.old self.new }
    {
        if !self.tail.is_bare() {
            return Err(Refusal::Stray);
        }
        self.tail = Tail::Open;
        Ok(())
    }

    fn close_block(&mut self) -> Result<(), Refusal>
        ensures taken { Takes (λ _. self.new) result
            (levels.close_block make_part self.old.kept self.old.mode) }
        ensures stays { Stays result self.old self.new }
    {
        if !self.tail.is_open() {
            return Err(Refusal::Stray);
        }
        self.tail = Tail::Done;
        Ok(())
    }

    /// Takes a row of a symbol.
    #[inline(always)]
    pub fn take(&mut self, alloc: Global, row: Row) -> Result<(), Refusal>
        requires range { RowIsInRange row }
        ensures taken { Takes (λ _. self.new) result
            (part_step self.old.kept self.old.mode row) }
        ensures stays { Stays result self.old self.new }
    {
        match row {
            Row::Drawn(shape) => self.put(alloc, shape),
            Row::OpenBlock => self.open_block(),
            Row::CloseBlock => self.close_block(),
            _ => Err(Refusal::Stray),
        }
    }

    /// All parts, where no block is open.
    pub fn close(self) -> Result<Parts, Refusal>
        ensures { Takes (λ v. v) result (levels.closed make_part self.kept self.mode) }
    {
        let OpenParts { items, tail } = self;
        if tail.is_open() {
            drop(items);
            return Err(Refusal::Stray);
        }
        Ok(items)
    }
}
