// The files that words name.
ghost use Rattle.std.specs.Prelude.{◌≡◌, ◌≢◌, true, false, AllPairs, map, IfOk, IsErrOf, IsOk};
ghost use Rattle.std.specs.List.{list_all};
ghost use Rattle.geda_defs.specs.Lists.{each_once};
ghost use Rattle.geda_model.specs.Names.{is_name};
ghost use Rattle.option_words.specs.Reads.{Gives};
ghost use Rattle.command_words.specs.Commands.{file_of, sheets_of};

use geda_model::{Name, NameFault};
use indexmap::IndexSet;
use option_words::WordFault;
use std::alloc::Global;

/// The file that a word names.
pub fn file_of(alloc: Global, word: &str) -> Result<Name, WordFault>
    ensures file { Gives (λ name. name) result (file_of word.now) }
    ensures same { IfOk result (λ name. name ≡ word.now) }
    ensures named { IsOk result → is_name word.now ≡ true }
    ensures usage { IsErrOf result WordFault.Usage → is_name word.now ≡ false }
{
    match Name::new(alloc, word) {
        Ok(name) => Ok(name),
        Err(NameFault::NotAName) => Err(WordFault::Usage),
        Err(NameFault::NoMemory) => Err(WordFault::NoMemory),
    }
}

/// The files that the words name, each once.
fn names_once(alloc: Global, words: &[&str]) -> Result<IndexSet<Name>, WordFault>
    ensures once { IfOk result (λ names. names.keys ≡ each_once (map (λ w. w.now) words.now)) }
    ensures named { IsOk result → list_all is_name (map (λ w. w.now) words.now) ≡ true }
    ensures usage { IsErrOf result WordFault.Usage
        → list_all is_name (map (λ w. w.now) words.now) ≡ false }
{
    let mut names = IndexSet::new(alloc);
    for word in words {
        let name = file_of(alloc, *word)?;
        names.insert(name)?;
    }
    Ok(names)
}

/// The sheets that the words name: at least one, and they differ.
pub fn sheets_of(alloc: Global, words: &[&str]) -> Result<Vec<Name>, WordFault>
    ensures sheets { Gives (λ sheets. sheets.items) result
        (sheets_of (map (λ w. w.now) words.now)) }
    ensures apart { IfOk result (λ sheets. AllPairs ◌≢◌ sheets.items) }
{
    if words.is_empty() {
        return Err(WordFault::Usage);
    }
    let names = names_once(alloc, words)?;
    if names.len() != words.len() {
        return Err(WordFault::Usage);
    }
    Ok(names.into_iter().collect(alloc)?)
}
