// What holds of the definitions.
ghost use Rattle.std.specs.Prelude.{◌≡◌, ◌⊎◌, ℕ, List};
ghost use Rattle.geda_model.specs.Sheets.{ObjectData, SheetData, SymbolData};
ghost use Rattle.geda_grammar.specs.Spelling.{SpellObject, SpellSheet, SpellSymbol};
ghost use Rattle.geda_grammar.specs.Faults.{object_file, sheet_file, symbol_file};
ghost use Rattle.geda_grammar.specs.Canonical.{object_text, sheet_text, symbol_text};
ghost use Rattle.geda_grammar.specs.Writable.{WritableObject, WritableSheet, WritableSymbol};
ghost use Rattle.geda_grammar.specs.Laws.{SpellsAlone, IsDetermined};

/// Bytes spell exactly one sheet and have no fault, or spell none and have exactly one fault.
pub fn sheet_law()
    ensures { IsDetermined sheet_file }
{}

/// The same of symbols.
pub fn symbol_law()
    ensures { IsDetermined symbol_file }
{}

/// The same of single objects.
pub fn object_law()
    ensures { IsDetermined object_file }
{}

/// The canonical text of what can be written spells it, and nothing else.
pub fn writing_law()
    ensures sheets { (s : SheetData) → WritableSheet s → SpellsAlone sheet_file (sheet_text s) s }
    ensures symbols { (s : SymbolData) → WritableSymbol s
        → SpellsAlone symbol_file (symbol_text s) s }
    ensures objects { (o : ObjectData) → WritableObject o
        → SpellsAlone object_file (object_text o) o }
{}
