// What follows of the definitions, in the words of the rules.
ghost use Rattle.std.specs.Prelude.{◌≡◌, ℕ, List};
ghost use Rattle.web_heads.specs.declared.cut_end.CutEnd.{CutEnd};
ghost use Rattle.web_heads.specs.Accesses.{AccessData};
ghost use Rattle.web_heads.specs.Cuts.{Begins, Cut, MessageData};
ghost use Rattle.web_heads.specs.Links.{IsPrefixOf};

/// Whichever way an input may end, its messages are the same.
pub fn one_list_law()
    ensures { (access : AccessData) (room : ℕ) (bytes : List ℕ) (ms ks : List MessageData) (d e : CutEnd) →
        Cut access room bytes ms d → Cut access room bytes ks e → ms ≡ ks }
{}

/// The messages that came before some end are the first of all that the input has.
pub fn first_law()
    ensures { (access : AccessData) (room : ℕ) (bytes : List ℕ) (ms all : List MessageData) (e : CutEnd) →
        Begins access room bytes ms → Cut access room bytes all e → IsPrefixOf ms all }
{}
