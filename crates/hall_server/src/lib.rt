//! Serving a hall: workers that answer the links of a gate, one worker a seat.
//!
//! On a connection each request is answered, in order, by what a `Service` makes of it. A clause
//! says on which first part of the history each reply stands, which requests were refused or lost,
//! and how the connection ended.
//!
//! A seat, with the hall that its edits go to, is such a service: an edit goes under the hall's
//! lock, a report comes without it, and only where there are as many entries as it wants. A net
//! list and a check are made of a copy of the project, when the look that copied it is over, so
//! that no publish waits for a text. All workers share the text of each kind that was made last,
//! with the entries that it is of: who finds none that holds all that was published when it was
//! asked makes one under the lock of the kind, for which those who ask meanwhile wait. Other
//! reports are made within one look. It knows no command and no status.
//!
//! The main call is `serve`; `serve_link` answers the requests of one link, and `serve_requests`
//! does so by any service. Profile: docs/FORMATS.md, "HTTP", "Reports". Rules: docs/RULES.md,
//! "Serving", "Transcripts", "Ends of connections", "Seats". Definitions: specs/Serving.antt,
//! specs/Connections.antt, specs/Stands.antt, and those that they cite.
#![tactic(auto)]

mod connection;
mod fault;
mod kept_reports;
mod kept_text;
mod last_text;
mod laws;
mod link_end;
mod messages;
mod project_copy;
mod reply_kind;
mod report_kind;
mod respond;
mod seat_reports;
mod seat_service;
mod service;
mod serving;
mod shown;
mod workers;

pub use connection::serve_link;
pub use fault::ServeFault;
pub use laws::own_entry_law;
pub use link_end::LinkEnd;
pub use messages::serve_requests;
pub use reply_kind::ReplyKind;
pub use service::Service;
pub use serving::serve;
pub use shown::Shown;
pub use workers::serve_all;
