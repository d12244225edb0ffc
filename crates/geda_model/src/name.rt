// Names of sheets, symbols and sessions.
ghost use Rattle.std.specs.Prelude.{[], ◌≡◌, ◌↔◌, ◌≤◌, IfOk, OnOk, IsErrOf, IsTrue, length, true, false};
ghost use Rattle.std.specs.List.{list_all};
ghost use Rattle.std.specs.String.{string_bytes, string_capacity};
ghost use Rattle.geda_model.specs.Limits.{most_name_bytes};
ghost use Rattle.geda_model.specs.Names.{IsName, is_name, is_name_byte};
ghost use Rattle.geda_model.specs.declared.name.NameFault.TheVariants.{NoMemory};

use crate::limits::MOST_NAME_BYTES;
use crate::short_text::ShortText;
use std::alloc::{AllocError, Global};
use std::cmp::Ordering;
use std::hash::{Hash, Hasher};
use std::marker::Model;

/// Why a text gives no `Name`, `Word` or `Line`.
#[derive(Clone, Copy, Debug, PartialEq, Eq)]
pub enum NameFault {
    /// The text is none.
    NotAName,
    /// Memory ran out.
    NoMemory,
}

impl From<AllocError> for NameFault {
    ghost from_gives = { λ _ e. e ≡ NoMemory };

    fn from(_: AllocError) -> NameFault {
        NameFault::NoMemory
    }
}

/// The name of a sheet, a symbol or a session: 1 to 100 bytes of ASCII letters, digits, `_`, `-`,
/// `+` and `.`, the first of which is no `.`. Names are ordered by their bytes.
#[derive(Debug, Drop)]
pub struct Name {
    text: ShortText,
}

impl Model for Name {
    ghost use Rattle.std.specs.Prelude.{List, ℕ};
    ghost use Rattle.geda_model.specs.Names.{IsName};

    ghost Value = { List ℕ };

    ghost view = { λ n. n.text };

    ghost invariant = { λ n. IsName n.text };
}

fn is_name_byte(byte: u8) -> bool
    ensures { result ≡ is_name_byte byte }
{
    matches!(byte, b'0'..=b'9' | b'A'..=b'Z' | b'a'..=b'z' | b'_' | b'-' | b'+' | b'.')
}

fn are_name_bytes(bytes: &[u8]) -> bool
    ensures { result ≡ list_all is_name_byte bytes.now }
{
    bytes.iter().all(|byte| is_name_byte(*byte))
}

fn is_name(bytes: &[u8]) -> bool
    ensures name { IsTrue result ↔ IsName bytes.now }
    ensures test { result ≡ is_name bytes.now }
{
    if bytes.is_empty() || bytes.len() > MOST_NAME_BYTES {
        return false;
    }
    if bytes[0] == b'.' {
        return false;
    }
    are_name_bytes(bytes)
}

impl Name {
    /// The name that a text is.
    ///
    /// `NotAName` exactly where the text is none (docs/RULES.md, "Names").
    pub fn new(alloc: Global, text: &str) -> Result<Name, NameFault>
        ensures same { IfOk result (λ name. name ≡ text.now) }
        ensures name { OnOk result (IsName text.now) }
        ensures accepted { OnOk result (is_name text.now ≡ true) }
        ensures refused { IsErrOf result NameFault.NotAName → ¬ IsName text.now }
        ensures rejected { IsErrOf result NameFault.NotAName → is_name text.now ≡ false }
    {
        if !is_name(text.as_bytes()) {
            return Err(NameFault::NotAName);
        }
        let text = ShortText::new(alloc, text)?;
        Ok(Name { text })
    }

    /// The text of the name. It takes no memory.
    pub fn as_str(&self) -> &str
        ensures text { result.now ≡ self.now }
        ensures name { IsName self.now }
    {
        self.text.as_str()
    }
}

impl Clone for Name {
    ghost use Rattle.std.specs.Prelude.{◌≡◌};

    ghost is_clone = { λ x y. y ≡ x };

    fn clone(&self) -> Result<Name, AllocError> {
        let text = self.text.clone()?;
        Ok(Name { text })
    }
}

impl PartialEq for Name {
    ghost use Rattle.std.specs.Str.{bytes_eq};
    ghost use Rattle.std.proofs.Common.{rules};
    ghost use Rattle.std.specs.Cmp.Rules.{comparing};

    ghost eq = { bytes_eq };

    ghost laws = { Prim.search (comparing, rules) };

    fn eq(&self, other: &Name) -> bool {
        self.as_str() == other.as_str()
    }
}

impl Eq for Name {
    ghost use Rattle.std.proofs.Common.{rules};
    ghost use Rattle.std.specs.Cmp.Rules.{comparing};

    ghost laws = { Prim.search (comparing, rules) };
}

impl PartialOrd for Name {
    ghost use Rattle.std.specs.Prelude.{Some};
    ghost use Rattle.std.proofs.Common.{rules};
    ghost use Rattle.std.specs.Cmp.{partial_order_from_own_ties};
    ghost use Rattle.std.specs.Cmp.Rules.{comparing};
    ghost use Rattle.std.specs.Cmp.Lexicographic.{slice_cmp};
    ghost use Rattle.std.specs.Ordering.{nat_cmp, as_partial_cmp};

    ghost partial_cmp = { as_partial_cmp (slice_cmp nat_cmp) };

    ghost laws = { partial_order_from_own_ties (Prim.search (comparing, rules)) (Prim.search (comparing, rules)) };

    fn partial_cmp(&self, other: &Name) -> Option<Ordering> {
        Some(self.cmp(other))
    }
}

impl Ord for Name {
    ghost use Rattle.std.proofs.Common.{rules};
    ghost use Rattle.std.specs.Cmp.Rules.{comparing};
    ghost use Rattle.std.specs.Cmp.Lexicographic.{slice_cmp};
    ghost use Rattle.std.specs.Ordering.{nat_cmp};

    ghost cmp = { slice_cmp nat_cmp };

    ghost total = { Prim.search (comparing, rules) };

    ghost matches_partial_cmp = { Prim.search (comparing, rules) };

    ghost matches_eq = { Prim.search (comparing, rules) };

    fn cmp(&self, other: &Name) -> Ordering {
        self.as_str().cmp(other.as_str())
    }
}

impl Hash for Name {
    ghost use Rattle.std.specs.Hash as fed;
    ghost use Rattle.std.proofs.Common.{rules};
    ghost use Rattle.std.specs.Cmp.Rules.{hashing};

    ghost hash_input = { fed.str };

    ghost respects_eq = { Prim.search (hashing, rules) };

    fn hash<H: Hasher>(&self, state: &mut H) {
        self.as_str().hash(state);
    }
}

/// Memory for one name.
#[derive(Debug, Drop)]
pub struct NameRoom {
    text: String,
    ghost is_empty: { string_bytes text ≡ [] },
    ghost has_room: { most_name_bytes ≤ string_capacity text },
}

impl NameRoom {
    /// Takes the memory.
    pub fn new(alloc: Global) -> Result<NameRoom, AllocError> {
        let text = String::with_capacity(alloc, MOST_NAME_BYTES)?;
        Ok(NameRoom { text })
    }

    /// A second copy of the name. It takes no memory.
    pub fn name(self, name: &Name) -> Name
        ensures { result ≡ name.now }
    {
        let NameRoom { mut text } = self;
        let source = &name.text;
        text.push_str(source.as_str()).unwrap();
        Name {
            text: ShortText::from_string(text),
        }
    }
}
