// What holds of the canonical texts.
ghost use Rattle.std.specs.Prelude.{◌≡◌, ◌≤◌, ℕ, List, length};
ghost use Rattle.geda_grammar.specs.Canonical.{object_text, sheet_text, symbol_text};
ghost use Rattle.geda_grammar.specs.Faults.{object_file, sheet_file, symbol_file};
ghost use Rattle.geda_grammar.specs.Laws.{SpellsAlone};
ghost use Rattle.geda_grammar.specs.Spelling.{SpellObject, SpellSheet, SpellSymbol, Spells};
ghost use Rattle.geda_model.specs.Limits.{most_file_bytes};
ghost use Rattle.geda_model.specs.Sheets.{ObjectData, SheetData, SymbolData};
ghost use Rattle.geda_write.specs.Again.{ObjectFits, SheetFits, SymbolFits};

use geda_model::{Object, Sheet, Symbol};

/// The canonical text of a sheet that fits into a file spells this sheet, and nothing else. So does
/// that of a sheet that some file spells, where it is not too long for a file. What a file spells
/// has one canonical text. Rule: docs/RULES.md, "Canonical text".
pub fn sheet_again(sheet: &Sheet)
    ensures fits { SheetFits sheet.now → SpellsAlone sheet_file (sheet_text sheet.now) sheet.now }
    ensures spelled { (bytes : List ℕ) → Spells SpellSheet bytes sheet.now
        → length (sheet_text sheet.now) ≤ most_file_bytes
        → SpellsAlone sheet_file (sheet_text sheet.now) sheet.now }
    ensures one { (bytes : List ℕ) (other : SheetData) → Spells SpellSheet bytes sheet.now
        → Spells SpellSheet bytes other → sheet_text other ≡ sheet_text sheet.now }
{
    // A field is read so that the proof sees that the sheet is in range.
    let _ = &sheet.head;
}

/// The same of a symbol.
pub fn symbol_again(symbol: &Symbol)
    ensures fits { SymbolFits symbol.now
        → SpellsAlone symbol_file (symbol_text symbol.now) symbol.now }
    ensures spelled { (bytes : List ℕ) → Spells SpellSymbol bytes symbol.now
        → length (symbol_text symbol.now) ≤ most_file_bytes
        → SpellsAlone symbol_file (symbol_text symbol.now) symbol.now }
    ensures one { (bytes : List ℕ) (other : SymbolData) → Spells SpellSymbol bytes symbol.now
        → Spells SpellSymbol bytes other → symbol_text other ≡ symbol_text symbol.now }
{
    // A field is read so that the proof sees that the symbol is in range.
    let _ = &symbol.head;
}

/// The same of an object.
pub fn object_again(object: &Object)
    ensures fits { ObjectFits object.now
        → SpellsAlone object_file (object_text object.now) object.now }
    ensures spelled { (bytes : List ℕ) → Spells SpellObject bytes object.now
        → length (object_text object.now) ≤ most_file_bytes
        → SpellsAlone object_file (object_text object.now) object.now }
    ensures one { (bytes : List ℕ) (other : ObjectData) → Spells SpellObject bytes object.now
        → Spells SpellObject bytes other → object_text other ≡ object_text object.now }
{
    // A field is read so that the proof sees that the object is in range.
    let _ = &object.body;
}
