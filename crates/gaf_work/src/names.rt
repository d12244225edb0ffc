// The two names that the work gives.
ghost use Rattle.std.specs.Prelude.{◌≡◌, IfOk};
ghost use Rattle.geda_model.specs.Names.{IsName, IsWord};
ghost use Rattle.gaf_work.specs.Opening.{sheet_name, symbol_name};

use geda_model::{Name, NameFault, Word};
use std::alloc::{AllocError, Global};

const SYMBOL_NAME: &str = "two.sym";

const SHEET_NAME: &str = "work.sch";

fn name_of(alloc: Global, text: &str) -> Result<Name, AllocError>
    requires { IsName text.now }
    ensures { IfOk result (λ name. name ≡ text.now) }
{
    match Name::new(alloc, text) {
        Ok(name) => Ok(name),
        Err(NameFault::NoMemory) => Err(AllocError),
        Err(NameFault::NotAName) => unreachable!(),
    }
}

fn word_of(alloc: Global, text: &str) -> Result<Word, AllocError>
    requires { IsWord text.now }
    ensures { IfOk result (λ word. word ≡ text.now) }
{
    match Word::new(alloc, text) {
        Ok(word) => Ok(word),
        Err(NameFault::NoMemory) => Err(AllocError),
        Err(NameFault::NotAName) => unreachable!(),
    }
}

/// The name of the sheet that the work draws on.
#[tactic(auto, using(crate::proofs::TextLemmas::sheet_name_is_name))]
pub fn sheet_name(alloc: Global) -> Result<Name, AllocError>
    ensures { IfOk result (λ name. name ≡ sheet_name) }
{
    name_of(alloc, SHEET_NAME)
}

/// The name of the symbol that the work places.
#[tactic(auto, using(crate::proofs::TextLemmas::symbol_name_is_name))]
pub fn symbol_name(alloc: Global) -> Result<Name, AllocError>
    ensures { IfOk result (λ name. name ≡ symbol_name) }
{
    name_of(alloc, SYMBOL_NAME)
}

/// The same name, as a component has it.
#[tactic(auto, using(crate::proofs::TextLemmas::symbol_name_is_word))]
pub fn basename(alloc: Global) -> Result<Word, AllocError>
    ensures { IfOk result (λ word. word ≡ symbol_name) }
{
    word_of(alloc, SYMBOL_NAME)
}
