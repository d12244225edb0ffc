// The objects of a sheet that is being read. Each stands in their list at once, and a block's texts
// go to the last one there. What moves a whole object is inlined, since LLVM then moves it once.
ghost use Rattle.std.specs.Prelude.{◌≡◌, ◌<◌, ◌≤◌, [], OnOk, length};
ghost use Rattle.geda_model.specs.Limits.{most_objects};
ghost use Rattle.geda_model.specs.Shapes.{ShapeIsInRange};
ghost use Rattle.geda_model.specs.Sheets.{BodyIsInRange};
ghost use Rattle.geda_model.specs.declared.object.Body.TheVariants as bodies;
ghost use Rattle.geda_grammar.specs.declared.mode.Mode.TheVariants as modes;
ghost use Rattle.geda_grammar.specs.steps.Levels as levels;
ghost use Rattle.geda_grammar.specs.steps.Sheets.{make_object};
ghost use Rattle.sheet_lines.specs.SheetLines.{RowIsInRange};
ghost use Rattle.geda_read.specs.steps.Levels.{Takes};
ghost use Rattle.geda_read.specs.steps.Staying.{Stays};

use crate::refusal::Refusal;
use crate::tail::Tail;
use geda_grammar::Row;
use geda_model::{Body, Object, Objects, Shape, Texts};
use std::alloc::{AllocError, Global};
use std::marker::Model;

/// The objects that are there, and how far the last one is.
#[derive(Drop)]
pub struct OpenObjects {
    pub items: Objects,
    pub tail: Tail,
}

impl Model for OpenObjects {
    ghost use Rattle.geda_grammar.specs.steps.Levels.{Level};
    ghost use Rattle.geda_model.specs.Sheets.{ObjectData};
    ghost use Rattle.geda_model.specs.declared.object.Body.{Body};
    ghost use Rattle.geda_read.specs.steps.Levels.{ObjectsStand, objects_level};

    ghost Value = { Level ObjectData Body };

    ghost view = { λ l. objects_level l.items l.tail };

    ghost invariant = { λ l. ObjectsStand l.items l.tail };
}

impl OpenObjects {
    /// No object. It takes no memory.
    #[tactic(auto, unfolding(crate::specs::steps::Levels::level_of))]
    pub fn new(alloc: Global) -> OpenObjects
        ensures { result ≡ record { kept = []; mode = modes.Settled } }
    {
        OpenObjects {
            items: Objects::new(alloc),
            tail: Tail::Done,
        }
    }

    /// Ends the last object, where one more has room and no block is open.
    #[inline(always)]
    pub fn settle(&mut self, most: usize) -> Result<(), Refusal>
        requires { most ≤ most_objects }
        ensures taken { Takes (λ _. self.new.kept) result
            (levels.room make_object most self.old.kept self.old.mode) }
        ensures few { OnOk result (length self.new.kept < most_objects) }
        ensures settled { OnOk result (self.new.mode ≡ modes.Settled) }
        ensures stays { Stays result self.old self.new }
    {
        if self.tail.is_open() {
            return Err(Refusal::Stray);
        }
        if self.items.as_slice().len() >= most {
            return Err(Refusal::Stray);
        }
        self.tail = Tail::Done;
        Ok(())
    }

    /// Puts an object, for which a block may come, behind the others.
    #[inline(always)]
    pub fn add(&mut self, alloc: Global, body: Body) -> Result<(), AllocError>
        requires settled { self.old.mode ≡ modes.Settled }
        requires few { length self.old.kept < most_objects }
        requires range { BodyIsInRange body }
        ensures { OnOk result (self.new ≡ levels.begun body self.old.kept) }
    {
        let attrs = Texts::new(alloc);
        self.items.push(Object { body, attrs })?;
        self.tail = Tail::Bare;
        Ok(())
    }

    /// Takes one object more, for which a block may come.
    #[inline(always)]
    pub fn push(&mut self, alloc: Global, most: usize, body: Body) -> Result<(), Refusal>
        requires most { most ≤ most_objects }
        requires range { BodyIsInRange body }
        ensures taken { Takes (λ _. self.new) result
            (levels.push make_object most body self.old.kept self.old.mode) }
        ensures stays { Stays result self.old self.new }
    {
        self.settle(most)?;
        self.add(alloc, body)?;
        Ok(())
    }

    #[inline(always)]
    fn put(&mut self, alloc: Global, most: usize, shape: Shape) -> Result<(), Refusal>
        requires most { most ≤ most_objects }
        requires range { ShapeIsInRange shape }
        ensures taken { Takes (λ _. self.new) result
            (levels.put make_object bodies.Shape most shape self.old.kept self.old.mode) }
        ensures stays { Stays result self.old self.new }
    {
        if self.tail.is_open() {
            let Shape::Text(text) = shape else {
                return Err(Refusal::Stray);
            };
            self.items.attach(text)?;
            return Ok(());
        }
        self.push(alloc, most, Body::Shape(shape))
    }

    fn open_block(&mut self) -> Result<(), Refusal>
        ensures taken { Takes (λ _. self.new) result
            (levels.open_block self.old.kept self.old.mode) }
        ensures stays { Stays result self.old self.new }
    {
        if !self.tail.is_bare() {
            return Err(Refusal::Stray);
        }
        self.tail = Tail::Open;
        Ok(())
    }

    fn close_block(&mut self) -> Result<(), Refusal>
        ensures taken { Takes (λ _. self.new) result
            (levels.close_block make_object self.old.kept self.old.mode) }
        ensures stays { Stays result self.old self.new }
    {
        if !self.tail.is_open() {
            return Err(Refusal::Stray);
        }
        self.tail = Tail::Done;
        Ok(())
    }

    /// Takes a row that is no component's.
    #[inline(always)]
    pub fn take(&mut self, alloc: Global, most: usize, row: Row) -> Result<(), Refusal>
        requires most { most ≤ most_objects }
        requires range { RowIsInRange row }
        ensures taken { Takes (λ _. self.new) result
            (levels.level_step make_object bodies.Shape most self.old.kept self.old.mode row) }
        ensures stays { Stays result self.old self.new }
    {
        match row {
            Row::Drawn(shape) => self.put(alloc, most, shape),
            Row::OpenBlock => self.open_block(),
            Row::CloseBlock => self.close_block(),
            _ => Err(Refusal::Stray),
        }
    }

    /// All objects, where no block is open.
    pub fn close(self) -> Result<Objects, Refusal>
        ensures { Takes (λ v. v) result (levels.closed make_object self.kept self.mode) }
    {
        let OpenObjects { items, tail } = self;
        if tail.is_open() {
            drop(items);
            return Err(Refusal::Stray);
        }
        Ok(items)
    }
}
