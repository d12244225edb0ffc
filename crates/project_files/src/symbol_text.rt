// The text under which a symbol is looked up, without a `Name` of it.
ghost use Rattle.std.specs.Cmp.Lexicographic.{bytes_decides, nat_list_eq_equiv};
ghost use Rattle.std.specs.Hash as fed;
ghost use Rattle.std.specs.Str.{bytes_eq};
ghost use Rattle.std.proofs.Common.{ap};

use geda_model::Name;
use indexmap::Equivalent;
use std::hash::{Hash, Hasher};

/// A text that stands for the `Name` of the same bytes.
#[derive(Clone, Copy)]
pub struct SymbolText<'a> {
    /// The text.
    pub text: &'a str,
}

impl<'a> PartialEq for SymbolText<'a> {
    ghost use Rattle.std.proofs.Common.{rules};
    ghost use Rattle.std.specs.Cmp.Rules.{comparing};

    ghost eq = { λ x y. bytes_eq x.text.now y.text.now };

    ghost laws = { Prim.search (comparing, rules) };

    fn eq(&self, other: &SymbolText<'a>) -> bool {
        self.text == other.text
    }
}

impl<'a> Eq for SymbolText<'a> {
    ghost use Rattle.std.proofs.Common.{rules};
    ghost use Rattle.std.specs.Cmp.Rules.{comparing};

    ghost laws = { Prim.search (comparing, rules) };
}

impl<'a> Hash for SymbolText<'a> {
    ghost hash_input = { λ q. fed.str q.text.now };

    ghost respects_eq = { λ x y h. ap fed.str ((bytes_decides x.text.now y.text.now).0 h) };

    fn hash<H: Hasher>(&self, state: &mut H) {
        self.text.hash(state);
    }
}

impl<'a> Equivalent<Name> for SymbolText<'a> {
    ghost equivalent = { λ q name. bytes_eq q.text.now name };

    ghost respects_hash = { λ q name h. ap fed.str ((bytes_decides q.text.now name).0 h) };

    ghost respects_eq = { λ q x y. nat_list_eq_equiv.congr q.text.now x y };

    fn equivalent(&self, name: &Name) -> bool {
        self.text == name.as_str()
    }
}
