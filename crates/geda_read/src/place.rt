// The objects of a sheet, and the embedded symbol that is open among them.
ghost use Rattle.std.specs.Prelude.{◌≡◌, ◌≢◌, ◌≤◌, [], IfOk};
ghost use Rattle.geda_model.specs.Limits.{most_objects};
ghost use Rattle.geda_grammar.specs.declared.mode.Mode.TheVariants as modes;
ghost use Rattle.geda_grammar.specs.declared.place.Place.TheVariants as places;
ghost use Rattle.geda_grammar.specs.declared.row.Row.TheVariants as grammar_rows;
ghost use Rattle.geda_grammar.specs.steps.Sheets.{component_of, object_step, sheet_end, sheet_step};
ghost use Rattle.sheet_lines.specs.SheetLines.{RowIsInRange};
ghost use Rattle.geda_read.specs.steps.Levels.{Takes};
ghost use Rattle.geda_read.specs.steps.Staying.{Stays};
ghost use Rattle.geda_read.specs.steps.Embeddings.{IsEndedFor, awaiting, close_step, embedding_step};

use crate::objects::OpenObjects;
use crate::parts::OpenParts;
use crate::refusal::Refusal;
use geda_grammar::{ComponentLine, Row};
use geda_model::{Body, Component, Objects, Parts};
use std::alloc::Global;
use std::marker::Model;

/// A component whose embedded symbol is to come, or is open.
#[derive(Drop)]
pub struct OpenSymbol {
    /// The component's line.
    pub line: ComponentLine,
    /// What is there of the symbol, where it is open.
    pub parts: Option<OpenParts>,
}

/// What is there of a sheet.
#[derive(Drop)]
pub struct OpenSheet {
    /// Its objects.
    pub objects: OpenObjects,
    /// The symbol that comes behind them, if one is to come or open.
    pub symbol: Option<OpenSymbol>,
}

impl Model for OpenSheet {
    ghost use Rattle.geda_grammar.specs.declared.place.Place.{Place};
    ghost use Rattle.geda_read.specs.steps.Embeddings.{HasRoomFor, place_of};

    ghost Value = { Place };

    ghost view = { λ s. place_of s.objects s.symbol };

    ghost invariant = { λ s. HasRoomFor s.objects s.symbol };
}

/// The component of a line, by its symbol.
fn component(line: ComponentLine, embedded: Option<Parts>) -> Component
    ensures { result ≡ component_of line embedded }
{
    let ComponentLine {
        x,
        y,
        selectable,
        angle,
        mirror,
        basename,
    } = line;
    Component {
        x,
        y,
        selectable,
        angle,
        mirror,
        basename,
        embedded,
    }
}

/// Takes a row where an object may stand. Answers the line of a component whose symbol is to come.
#[inline(always)]
fn take_among(
    objects: &mut OpenObjects,
    alloc: Global,
    most: usize,
    row: Row,
) -> Result<Option<ComponentLine>, Refusal>
    requires most { most ≤ most_objects }
    requires range { RowIsInRange row }
    ensures taken { Takes (awaiting objects.new) result
        (object_step most objects.old.kept objects.old.mode row) }
    ensures room { IfOk result (IsEndedFor objects.new) }
    ensures stays { Stays result objects.old objects.new }
{
    match row {
        Row::Library(line) => {
            let body = Body::Component(component(line, None));
            objects.push(alloc, most, body)?;
            Ok(None)
        }
        Row::Embedding(line) => {
            objects.settle(most)?;
            Ok(Some(line))
        }
        row => {
            objects.take(alloc, most, row)?;
            Ok(None)
        }
    }
}

impl OpenSymbol {
    /// Takes a row that does not close the symbol.
    #[inline(always)]
    fn take(&mut self, alloc: Global, row: Row) -> Result<(), Refusal>
        requires { RowIsInRange row }
        ensures taken { Takes (λ _. self.new) result (embedding_step self.old row) }
        ensures stays { Stays result self.old self.new }
    {
        if let Some(parts) = &mut self.parts {
            return parts.take(alloc, row);
        }
        match row {
            Row::OpenSymbol => {
                self.parts = Some(OpenParts::new(alloc));
                Ok(())
            }
            _ => Err(Refusal::Stray),
        }
    }
}

impl OpenSheet {
    /// A sheet without objects. It takes no memory.
    pub fn new(alloc: Global) -> OpenSheet
        ensures { result ≡ places.Objects [] modes.Settled }
    {
        OpenSheet {
            objects: OpenObjects::new(alloc),
            symbol: None,
        }
    }

    /// Takes the `]` of the symbol that is open.
    pub fn close_symbol(&mut self, alloc: Global) -> Result<(), Refusal>
        ensures { Takes (λ _. self.new) result (close_step self.old) }
    {
        let Some(OpenSymbol { line, parts }) = self.symbol.take() else {
            return Err(Refusal::Stray);
        };
        let Some(parts) = parts else {
            return Err(Refusal::Stray);
        };
        let parts = parts.close()?;
        let body = Body::Component(component(line, Some(parts)));
        self.objects.add(alloc, body)?;
        Ok(())
    }

    /// Takes a row that is no `]`, of a sheet which has room for so many objects. Where it may not
    /// stand nothing changes.
    #[inline(always)]
    pub fn take(&mut self, alloc: Global, most: usize, row: Row) -> Result<(), Refusal>
        requires most { most ≤ most_objects }
        requires range { RowIsInRange row }
        requires other { row ≢ grammar_rows.CloseSymbol }
        ensures taken { Takes (λ _. self.new) result (sheet_step most self.old row) }
        ensures stays { Stays result self.old self.new }
    {
        if let Some(symbol) = &mut self.symbol {
            return symbol.take(alloc, row);
        }
        if let Some(line) = take_among(&mut self.objects, alloc, most, row)? {
            self.symbol = Some(OpenSymbol { line, parts: None });
        }
        Ok(())
    }

    /// All objects, where no block and no symbol is open.
    pub fn close(self) -> Result<Objects, Refusal>
        ensures { Takes (λ v. v) result (sheet_end self) }
    {
        let OpenSheet { objects, symbol } = self;
        if symbol.is_some() {
            drop(objects);
            drop(symbol);
            return Err(Refusal::Stray);
        }
        drop(symbol);
        objects.close()
    }
}
