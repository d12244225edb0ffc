//! What follows where nothing is found.
ghost use Rattle.std.specs.Prelude.{◌≡◌, List};
ghost use Rattle.sym_check.specs.declared.finding.SymFinding.{SymFinding};
ghost use Rattle.sym_check.specs.Laws.{SlotsHold};
ghost use Rattle.sym_check.specs.Order.{AreInOrder};

use geda_model::Symbol;

/// The law on slots. Where none of BadNumslots, MissingSlotdef, DuplicateSlotdef and BadSlotdef is
/// found on a symbol, and its free `numslots` is 1 to 4 digits of the value n, each slot from 1 to
/// n, written without leading zeros, has its pin numbers (docs/RULES.md, "Symbol check").
pub fn slots_hold(symbol: &Symbol)
    ensures { SlotsHold symbol.now }
{
    // A field is read so that the proof sees that the symbol is in range.
    let _ = &symbol.parts;
}

/// The law that findings stand in one order: there is one list that has just these, in order and
/// each once.
pub fn one_list()
    ensures { (found first second : List SymFinding) → AreInOrder found first
        → AreInOrder found second → first ≡ second }
{}
