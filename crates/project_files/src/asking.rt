// What is asked of a folder for the objects of sheets: symbols, and the sheets that they name.
ghost use Rattle.std.specs.Prelude.{◌≡◌, ◌≤◌, ◌∷◌, [], IfOk, IfSome, IsTrue, None, false};
ghost use Rattle.std.specs.Prelude.{option_copied, true};
ghost use Rattle.geda_defs.specs.Contents.{KeepsFiles};
ghost use Rattle.geda_model.specs.Names.{is_name};
ghost use Rattle.outside.specs.Counts.{counts};
ghost use Rattle.project_files.specs.Gathering.{asked_symbol, named_symbol, sources_of};
ghost use Rattle.project_files.specs.ProjectFiles.{IsFolderAnswer, with_view};
ghost use Rattle.project_files.specs.steps.Progress.{Asks, TakesNext, is_in};
ghost use Rattle.project_files.specs.steps.Asking.{AsksComponent, AsksNothing, AsksObject};
ghost use Rattle.project_files.specs.steps.Asking.{AsksObjects, AsksSymbol, AsksValues, IsKnown};
ghost use Rattle.project_files.specs.steps.Asking.{symbol_of};

use crate::fault::FileFault;
use crate::file_reads::{asked_symbol, name_of, read_symbol_file};
use crate::folder::Folder;
use crate::symbol_text::SymbolText;
use attr_rules::{attr_of, attrs_of, is_annotation};
use geda_model::{Block, Body, Items, Name, Object, Symbol};
use indexmap::{IndexMap, IndexSet};
use std::alloc::{AllocError, Global};
use std::collections::VecDeque;
use std::marker::Model;

/// The file of a sheet that was found, until its turn comes.
#[derive(Drop)]
pub struct SheetFile {
    /// The name of the sheet.
    pub name: Name,
    /// The bytes of its file, as far as they are read.
    pub bytes: Vec<u8>,
}

impl Model for SheetFile {
    ghost use Rattle.project_files.specs.steps.Progress.{SheetFileData};

    ghost Value = { SheetFileData };

    ghost view = { λ s. record { name = s.name; bytes = s.bytes.items } };
}

/// What is asked for so far.
#[derive(Drop)]
pub struct Asked {
    /// The names of sheets, in the order in which these are read.
    pub queue: IndexSet<Name>,
    /// The files of those sheets whose turn comes after all words, in the same order.
    pub waiting: VecDeque<SheetFile>,
    /// The names of sheets that the folder does not have.
    pub absent: IndexSet<Name>,
    /// The symbol files, each with its symbol, if there is such a file.
    pub symbols: IndexMap<Name, Option<Symbol>>,
}

impl Model for Asked {
    ghost use Rattle.project_files.specs.steps.Progress.{AskedData};

    ghost Value = { AskedData };

    ghost view = { λ a. record {
      queue = a.queue.keys;
      waiting = a.waiting.items;
      absent = a.absent.keys;
      symbols = a.symbols.entries;
    } };
}

impl Asked {
    /// Nothing.
    pub fn new(alloc: Global) -> Asked
        ensures queue { result.queue ≡ [] }
        ensures waiting { result.waiting ≡ [] }
        ensures absent { result.absent ≡ [] }
        ensures symbols { result.symbols ≡ [] }
    {
        Asked {
            queue: IndexSet::new(alloc),
            waiting: VecDeque::new(alloc),
            absent: IndexSet::new(alloc),
            symbols: IndexMap::new(alloc),
        }
    }

    /// Takes the file of the sheet whose turn comes, the first of those that wait. `None` exactly
    /// where none waits, and then nothing changes.
    pub fn next_waiting(&mut self) -> Option<SheetFile>
        ensures { TakesNext self.old result self.new }
    {
        self.waiting.pop_front()
    }

    /// The symbol of a name, if one was found.
    fn symbol_of(&self, name: &Option<Name>) -> Option<&Symbol>
        ensures { option_copied result ≡ symbol_of self.now.symbols name.now }
    {
        match name {
            None => None,
            Some(name) => match self.symbols.get(name) {
                None => None,
                Some(symbol) => symbol.as_ref(),
            },
        }
    }

    /// The symbol of the name that a text is, where its file was asked for.
    fn symbol_under(&self, text: &str) -> Option<Option<&Symbol>>
        ensures { IfSome result (λ library.
            IsKnown self.now.symbols (named_symbol text.now None) (option_copied library)) }
    {
        let (name, symbol) = self.symbols.get_key_value(SymbolText { text })?;
        // Such a text is a name.
        let _ = name.as_str();
        Some(symbol.as_ref())
    }

    /// The library symbol of an object, where nothing is to be asked for it.
    fn library_of(&self, object: &Object) -> Option<Option<&Symbol>>
        ensures { IfSome result (λ library.
            IsKnown self.now.symbols (asked_symbol object.now) (option_copied library)) }
    {
        match &object.body {
            Body::Shape(_) => Some(None),
            Body::Component(component) => match &component.embedded {
                Some(_) => Some(None),
                None => self.symbol_under(component.basename.as_str()),
            },
        }
    }

    /// Whether a component asks for nothing: its symbol was asked for, and it has no `source`.
    fn asks_nothing(&self, object: &Object) -> bool
        ensures { IsTrue result → AsksNothing self.now object.now }
    {
        let Some(library) = self.library_of(object) else {
            return false;
        };
        attr_of(object, library, "source").is_none()
    }

    /// Reads the file of a symbol, unless it was asked for before.
    fn ask_symbol<F: Folder>(
        &mut self,
        alloc: Global,
        name: &Option<Name>,
        folder: &mut F,
    ) -> Result<(), FileFault>
        ensures read { IsFolderAnswer (counts (F.faults folder.old) (F.faults folder.new))
            (Asks (F.files folder.old) self.old (AsksSymbol self.old name.now))
            (with_view (λ _. self.new) result) }
        ensures later { F.faults folder.old ≤ F.faults folder.new }
        ensures files { KeepsFiles (F.files folder.old) (F.files folder.new) }
    {
        let Some(name) = name else {
            return Ok(());
        };
        if self.symbols.contains_key(name) {
            return Ok(());
        }
        let symbol = read_symbol_file(alloc, name, folder)?;
        self.symbols.insert(name.clone()?, symbol)?;
        Ok(())
    }

    /// Asks for the file of a sheet that was not asked for.
    fn ask_sheet<F: Folder>(
        &mut self,
        alloc: Global,
        name: Name,
        folder: &mut F,
    ) -> Result<(), FileFault>
        requires name { is_name name ≡ true }
        requires queue { is_in name self.old.queue ≡ false }
        requires absent { is_in name self.old.absent ≡ false }
        ensures read { IsFolderAnswer (counts (F.faults folder.old) (F.faults folder.new))
            (Asks (F.files folder.old) self.old (AsksValues self.old (name ∷ [])))
            (with_view (λ _. self.new) result) }
        ensures later { F.faults folder.old ≤ F.faults folder.new }
        ensures files { KeepsFiles (F.files folder.old) (F.files folder.new) }
    {
        match folder.read(alloc, name.as_str())? {
            None => {
                self.absent.insert(name)?;
            }
            Some(bytes) => {
                let copy = name.clone()?;
                self.waiting.push_back(SheetFile { name: copy, bytes })?;
                self.queue.insert(name)?;
            }
        }
        Ok(())
    }

    /// Asks for the sheet that a value names, unless it was asked for before.
    fn ask_value<F: Folder>(
        &mut self,
        alloc: Global,
        value: &str,
        folder: &mut F,
    ) -> Result<(), FileFault>
        ensures read { IsFolderAnswer (counts (F.faults folder.old) (F.faults folder.new))
            (Asks (F.files folder.old) self.old (AsksValues self.old (value.now ∷ [])))
            (with_view (λ _. self.new) result) }
        ensures later { F.faults folder.old ≤ F.faults folder.new }
        ensures files { KeepsFiles (F.files folder.old) (F.files folder.new) }
    {
        let Some(name) = name_of(alloc, value)? else {
            return Ok(());
        };
        if self.queue.contains(&name) {
            return Ok(());
        }
        if self.absent.contains(&name) {
            return Ok(());
        }
        self.ask_sheet(alloc, name, folder)
    }

    /// Asks for the sheets that values name.
    fn ask_values<F: Folder>(
        &mut self,
        alloc: Global,
        values: &[Block],
        folder: &mut F,
    ) -> Result<(), FileFault>
        ensures read { IsFolderAnswer (counts (F.faults folder.old) (F.faults folder.new))
            (Asks (F.files folder.old) self.old (AsksValues self.old values.now))
            (with_view (λ _. self.new) result) }
        ensures later { F.faults folder.old ≤ F.faults folder.new }
        ensures files { KeepsFiles (F.files folder.old) (F.files folder.new) }
    {
        for value in values {
            self.ask_value(alloc, value.as_str(), folder)?;
        }
        Ok(())
    }

    /// The values of `source` of a component, by the symbol of this name: none where it is
    /// graphical or a no-connection directive.
    fn source_values(
        &self,
        alloc: Global,
        object: &Object,
        name: &Option<Name>,
    ) -> Result<Items<Block>, AllocError>
        ensures { IfOk result
            (λ values. values ≡ sources_of object.now (symbol_of self.now.symbols name.now)) }
    {
        let library = self.symbol_of(name);
        if is_annotation(object, library) {
            return Ok(Items::from_vec(Vec::new(alloc)));
        }
        attrs_of(alloc, object, library, "source")
    }

    /// Asks for the symbol of a component, and then for the sheets that it names.
    fn ask_component<F: Folder>(
        &mut self,
        alloc: Global,
        object: &Object,
        folder: &mut F,
    ) -> Result<(), FileFault>
        ensures read { IsFolderAnswer (counts (F.faults folder.old) (F.faults folder.new))
            (Asks (F.files folder.old) self.old (AsksComponent self.old object.now))
            (with_view (λ _. self.new) result) }
        ensures later { F.faults folder.old ≤ F.faults folder.new }
        ensures files { KeepsFiles (F.files folder.old) (F.files folder.new) }
    {
        // Most components are asked about no further.
        if self.asks_nothing(object) {
            return Ok(());
        }
        let name = asked_symbol(alloc, object)?;
        self.ask_symbol(alloc, &name, folder)?;
        let values = self.source_values(alloc, object, &name)?;
        self.ask_values(alloc, values.as_slice(), folder)
    }

    /// Asks for what an object needs.
    fn ask_object<F: Folder>(
        &mut self,
        alloc: Global,
        object: &Object,
        folder: &mut F,
    ) -> Result<(), FileFault>
        ensures read { IsFolderAnswer (counts (F.faults folder.old) (F.faults folder.new))
            (Asks (F.files folder.old) self.old (AsksObject self.old object.now))
            (with_view (λ _. self.new) result) }
        ensures later { F.faults folder.old ≤ F.faults folder.new }
        ensures files { KeepsFiles (F.files folder.old) (F.files folder.new) }
    {
        match &object.body {
            Body::Shape(_) => Ok(()),
            Body::Component(_) => self.ask_component(alloc, object, folder),
        }
    }

    /// Asks for what objects need, in their order.
    pub fn ask_objects<F: Folder>(
        &mut self,
        alloc: Global,
        objects: &[Object],
        folder: &mut F,
    ) -> Result<(), FileFault>
        ensures read { IsFolderAnswer (counts (F.faults folder.old) (F.faults folder.new))
            (Asks (F.files folder.old) self.old (AsksObjects self.old objects.now))
            (with_view (λ _. self.new) result) }
        ensures later { F.faults folder.old ≤ F.faults folder.new }
        ensures files { KeepsFiles (F.files folder.old) (F.files folder.new) }
    {
        for object in objects {
            self.ask_object(alloc, object, folder)?;
        }
        Ok(())
    }
}
