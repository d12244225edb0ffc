// What follows of the definitions, in the words of the rules.
ghost use Rattle.std.specs.Prelude.{◌≡◌, Bool, List, Some, slice_get, ℕ};
ghost use Rattle.edit_entries.specs.Entries.{EntryData};
ghost use Rattle.edit_rules.specs.Verdicts.{verdict};
ghost use Rattle.edit_rules.specs.declared.verdict.Verdict.TheVariants.{Repeat};
ghost use Rattle.web_requests.specs.declared.request.Request.{Request};
ghost use Rattle.web_requests.specs.declared.request.Request.TheVariants.{Edit};
ghost use Rattle.web_requests.specs.Answers.{Acknowledges, IsRequestAnswer};
ghost use Rattle.web_requests.specs.Requests.{IsRequest};

/// A message is one request only.
pub fn one_request_law()
    ensures { (method target body : List ℕ) (r q : Request) →
        IsRequest method target body r → IsRequest method target body q → r ≡ q }
{}

/// An entry that is told to stand at a serial of a history stands there.
pub fn held_law()
    ensures { (h : List EntryData) (e : EntryData) (serial : ℕ) →
        verdict h e ≡ Repeat serial → slice_get h serial ≡ Some e }
{}

/// The entry of an edit that is answered 200 after a history stands in it.
pub fn acknowledged_law()
    ensures { (h : List EntryData) (e : EntryData) (closing : Bool) (text : List ℕ) →
        IsRequestAnswer h (Edit e) closing text → Acknowledges text →
        (serial : ℕ) × (slice_get h serial ≡ Some e) }
{}
