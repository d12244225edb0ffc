// The routes of the paths.
ghost use Rattle.std.specs.Prelude.{◌≡◌, [], OnOk, true};
ghost use Rattle.web_requests.specs.Paths.{route_at};
ghost use Rattle.web_requests.specs.Rows.{fixed_rows, route_rows};
ghost use Rattle.web_requests.specs.steps.Reading.{is_free, with_route};

use matchit::{InsertError, Router};
use reports::Form;
use std::alloc::{AllocError, Global};
use std::marker::Model;

/// What a path leads to.
#[derive(Clone, Copy, Debug, PartialEq, Eq)]
pub enum Route {
    /// An edit is brought.
    Edits,
    /// The net list in a form.
    Net(Form),
    /// What the check finds.
    Drc,
    /// The sheets.
    Sheets,
    /// A sheet, by its name.
    Sheet,
    /// A symbol, by its name.
    Symbol,
    /// The objects of a sheet, by its name.
    Objects,
}

/// The table of the routes.
#[derive(Drop)]
pub struct Routes {
    router: Router<Route>,
}

impl Model for Routes {
    ghost use Rattle.std.specs.Prelude.{◌≡◌};
    ghost use Rattle.web_requests.specs.Rows.{route_rows};

    ghost Value = { Unit {0} };

    ghost view = { λ r. tt };

    ghost invariant = { λ r. r.router ≡ route_rows };
}

/// Adds a route. No route that is there conflicts with it, so that nothing but memory can be
/// wanting.
fn add(router: &mut Router<Route>, text: &str, route: Route) -> Result<(), AllocError>
    requires { is_free text.now router.old ≡ true }
    ensures { OnOk result (router.new ≡ with_route text.now route router.old) }
{
    match router.insert(text, route) {
        Ok(()) => Ok(()),
        Err(InsertError::OutOfMemory) => Err(AllocError),
        Err(_) => unreachable!(),
    }
}

/// Adds the routes with no name in them.
fn add_fixed(router: &mut Router<Route>) -> Result<(), AllocError>
    requires { router.old ≡ [] }
    ensures { OnOk result (router.new ≡ fixed_rows) }
{
    add(router, "/edits", Route::Edits)?;
    add(router, "/netlist/list", Route::Net(Form::List))?;
    add(router, "/netlist/tango", Route::Net(Form::Tango))?;
    add(router, "/netlist/pcb", Route::Net(Form::Pcb))?;
    add(router, "/netlist/bom", Route::Net(Form::Bom))?;
    add(router, "/drc", Route::Drc)?;
    add(router, "/sheets", Route::Sheets)?;
    Ok(())
}

/// Adds those with a name.
fn add_named(router: &mut Router<Route>) -> Result<(), AllocError>
    requires { router.old ≡ fixed_rows }
    ensures { OnOk result (router.new ≡ route_rows) }
{
    add(router, "/sheets/{name}", Route::Sheet)?;
    add(router, "/symbols/{name}", Route::Symbol)?;
    add(router, "/objects/{name}", Route::Objects)?;
    Ok(())
}

impl Routes {
    /// The table.
    pub fn new(alloc: Global) -> Result<Routes, AllocError> {
        let mut router = Router::new(alloc);
        add_fixed(&mut router)?;
        add_named(&mut router)?;
        Ok(Routes { router })
    }

    /// The route of a path, as the path stands.
    pub(crate) fn find(&self, path: &str) -> Option<Route>
        ensures { result ≡ route_at path.now }
    {
        match self.router.at(path) {
            Ok(found) => Some(*found.value),
            Err(_) => None,
        }
    }
}
