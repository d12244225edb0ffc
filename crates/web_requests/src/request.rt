// The request that a message is.
ghost use Rattle.std.specs.Prelude.{◌≡◌, Some, IfOk};
ghost use Rattle.web_requests.specs.Paths as spec;
ghost use Rattle.web_requests.specs.Paths.{name_of_method};
ghost use Rattle.web_requests.specs.Queries.{least_in_query};
ghost use Rattle.web_requests.specs.Requests.{IsAsked, IsEditRequest, IsOnRoute, IsRequest};
ghost use Rattle.web_requests.specs.Requests.{named_of, queried, report_of};

use crate::query::{Least, least_in, split_target};
use crate::route::{Route, Routes};
use edit_entries::Entry;
use edit_json::{EntryFault, read_entry};
use geda_model::{Block, Name, NameFault};
use reports::What;
use std::alloc::{AllocError, Global};

/// A method that a route has.
#[derive(Clone, Copy, Debug, PartialEq, Eq)]
pub enum Allowed {
    /// `GET`.
    Get,
    /// `POST`.
    Post,
}

/// A request that asks neither for an edit nor for a report: what is wrong with it.
#[derive(Debug, Drop)]
pub enum FixedRequest {
    /// The body is no entry: the JSON pointer of its first fault (docs/RULES.md, "Entries as
    /// JSON").
    BadEdit(Block),
    /// The query says `min` twice, or not by 1 to 10 digits.
    BadQuery,
    /// The path has no route.
    NoRoute,
    /// The route has this method alone.
    NotAllowed(Allowed),
    /// The path names a sheet by what is no name.
    NoSheet,
    /// The path names a symbol by what is no name.
    NoSymbol,
}

/// A request (docs/RULES.md, "Requests").
#[derive(Debug, Drop)]
pub enum Request {
    /// An edit is brought.
    Edit(Entry),
    /// A report is asked for.
    Report {
        /// How many entries it wants the history to have, if it says so.
        least: Option<u64>,
        /// The report.
        what: What,
    },
    /// Neither, as something is wrong with it.
    Fixed(FixedRequest),
}

/// The request whose body is read as an entry.
fn edit_request(alloc: Global, body: &[u8]) -> Result<Request, AllocError>
    ensures { IfOk result (IsEditRequest body.now) }
{
    match read_entry(alloc, body) {
        Ok(entry) => Ok(Request::Edit(entry)),
        Err(EntryFault::BadEdit { pointer }) => Ok(Request::Fixed(FixedRequest::BadEdit(pointer))),
        Err(EntryFault::NoMemory) => Err(AllocError),
    }
}

/// The name that a text is, if it is one.
fn name_of(alloc: Global, text: &str) -> Result<Option<Name>, AllocError>
    ensures { IfOk result (λ name. name ≡ named_of text.now) }
{
    match Name::new(alloc, text) {
        Ok(name) => Ok(Some(name)),
        Err(NameFault::NotAName) => Ok(None),
        Err(NameFault::NoMemory) => Err(AllocError),
    }
}

/// What is behind a prefix, or nothing.
fn behind<'a>(prefix: &str, path: &'a str) -> &'a str
    ensures { result.now ≡ spec.behind prefix.now path.now }
{
    match path.strip_prefix(prefix) {
        Some(rest) => rest,
        None => "",
    }
}

/// The request for a sheet.
fn sheet_request(alloc: Global, least: Option<u64>, path: &str) -> Result<Request, AllocError>
    ensures { IfOk result (λ r. r ≡ report_of least Route.Sheet path.now) }
{
    match name_of(alloc, behind("/sheets/", path))? {
        Some(name) => Ok(Request::Report {
            least,
            what: What::Sheet(name),
        }),
        None => Ok(Request::Fixed(FixedRequest::NoSheet)),
    }
}

/// The request for a symbol.
fn symbol_request(alloc: Global, least: Option<u64>, path: &str) -> Result<Request, AllocError>
    ensures { IfOk result (λ r. r ≡ report_of least Route.Symbol path.now) }
{
    match name_of(alloc, behind("/symbols/", path))? {
        Some(name) => Ok(Request::Report {
            least,
            what: What::Symbol(name),
        }),
        None => Ok(Request::Fixed(FixedRequest::NoSymbol)),
    }
}

/// The request for the objects of a sheet.
fn objects_request(alloc: Global, least: Option<u64>, path: &str) -> Result<Request, AllocError>
    ensures { IfOk result (λ r. r ≡ report_of least Route.Objects path.now) }
{
    match name_of(alloc, behind("/objects/", path))? {
        Some(name) => Ok(Request::Report {
            least,
            what: What::Objects(name),
        }),
        None => Ok(Request::Fixed(FixedRequest::NoSheet)),
    }
}

/// The request for a report.
fn report_request(
    alloc: Global,
    least: Option<u64>,
    route: Route,
    path: &str,
) -> Result<Request, AllocError>
    ensures { IfOk result (λ r. r ≡ report_of least route path.now) }
{
    match route {
        Route::Net(form) => Ok(Request::Report {
            least,
            what: What::Net(form),
        }),
        Route::Drc => Ok(Request::Report {
            least,
            what: What::Drc,
        }),
        Route::Sheets => Ok(Request::Report {
            least,
            what: What::Sheets,
        }),
        Route::Sheet => sheet_request(alloc, least, path),
        Route::Symbol => symbol_request(alloc, least, path),
        Route::Objects => objects_request(alloc, least, path),
        Route::Edits => Ok(Request::Fixed(FixedRequest::NoRoute)),
    }
}

/// The request for a report, whose query is read first.
fn queried_request(
    alloc: Global,
    route: Route,
    path: &str,
    query: &str,
) -> Result<Request, AllocError>
    ensures { IfOk result (λ r. r ≡ queried (least_in_query query.now) route path.now) }
{
    match least_in(alloc, query.as_bytes())? {
        Least::Absent => report_request(alloc, None, route, path),
        Least::At(least) => report_request(alloc, Some(least), route, path),
        Least::Bad => Ok(Request::Fixed(FixedRequest::BadQuery)),
    }
}

/// The method of a route.
fn method_of(route: Route) -> Allowed
    ensures { result ≡ spec.method_of route }
{
    match route {
        Route::Edits => Allowed::Post,
        _ => Allowed::Get,
    }
}

impl Allowed {
    /// Its name. It takes no memory.
    pub fn name(self) -> &'static str
        ensures { result.now ≡ name_of_method self }
    {
        match self {
            Allowed::Get => "GET",
            Allowed::Post => "POST",
        }
    }
}

/// What is asked on a route by its own method.
fn asked_request(
    alloc: Global,
    route: Route,
    path: &str,
    query: &str,
    body: &[u8],
) -> Result<Request, AllocError>
    ensures { IfOk result (IsAsked route path.now query.now body.now) }
{
    match route {
        Route::Edits => edit_request(alloc, body),
        Route::Net(_)
        | Route::Drc
        | Route::Sheets
        | Route::Sheet
        | Route::Symbol
        | Route::Objects => queried_request(alloc, route, path, query),
    }
}

/// The request on a route.
fn request_on(
    alloc: Global,
    route: Route,
    method: &[u8],
    path: &str,
    query: &str,
    body: &[u8],
) -> Result<Request, AllocError>
    ensures { IfOk result (IsOnRoute method.now path.now query.now body.now (Some route)) }
{
    let allowed = method_of(route);
    if method != allowed.name().as_bytes() {
        return Ok(Request::Fixed(FixedRequest::NotAllowed(allowed)));
    }
    asked_request(alloc, route, path, query, body)
}

/// The request that a message is: by its path, its method, its query, and the name in its path, in
/// that order (docs/RULES.md, "Requests").
pub fn request_of(
    alloc: Global,
    routes: &Routes,
    method: &[u8],
    target: &str,
    body: &[u8],
) -> Result<Request, AllocError>
    ensures { IfOk result (IsRequest method.now target.now body.now) }
{
    let (path, query) = split_target(target);
    match routes.find(path) {
        Some(route) => request_on(alloc, route, method, path, query, body),
        None => Ok(Request::Fixed(FixedRequest::NoRoute)),
    }
}
