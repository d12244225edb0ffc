// What is read of the files of a project.
use geda_model::{Name, Sheet, Symbol};
use std::marker::Model;

/// The sheets and symbols that were read, in order.
#[derive(Drop)]
pub struct GatheredFiles {
    /// The names of the sheets.
    pub queue: Vec<Name>,
    /// The sheets, in the order of their names.
    pub sheets: Vec<Sheet>,
    /// The symbol files that were asked for, each with its symbol, if there is such a file.
    pub symbols: Vec<(Name, Option<Symbol>)>,
}

impl Model for GatheredFiles {
    ghost use Rattle.project_files.specs.Gathering.{Gathered};

    ghost Value = { Gathered };

    ghost view = { λ g. record {
      queue = g.queue.items;
      sheets = g.sheets.items;
      symbols = g.symbols.items;
    } };
}
