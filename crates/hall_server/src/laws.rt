// What follows of the definitions, in the words of the rules.
ghost use Rattle.std.specs.Prelude.{◌≡◌, ℕ, Bool, List, Some, [], ◌∷◌};
ghost use Rattle.edit_entries.specs.Entries.{EntryData};
ghost use Rattle.web_heads.specs.Accesses.{AccessData};
ghost use Rattle.web_heads.specs.Cuts.{IsMessageBy, MessageData};
ghost use Rattle.web_heads.specs.Heads.{headers_of, values_named};
ghost use Rattle.web_requests.specs.declared.request.Request.TheVariants.{Edit};
ghost use Rattle.web_requests.specs.Answers.{Acknowledges};
ghost use Rattle.hall_server.specs.declared.reply_kind.ReplyKind.{ReplyKind};
ghost use Rattle.hall_server.specs.Transcripts.{IsReply, IsRequestOf};

/// Where a header names the user, an entry that is acknowledged in a message has as its session the
/// one value of that header in the head of the message.
pub fn own_entry_law()
    ensures { (access : AccessData) (header bytes rest : List ℕ) (message : MessageData)
        (is : IsMessageBy access bytes message rest) (from : ℕ) (h : List EntryData)
        (closing : Bool) (kind : ReplyKind) (text : List ℕ) (entry : EntryData) →
        access.user ≡ Some header → IsReply from h message closing kind text →
        IsRequestOf message (Edit entry) → Acknowledges text →
        values_named header (headers_of is.head) ≡ entry.session ∷ [] }
{}
