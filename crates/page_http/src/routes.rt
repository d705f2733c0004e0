ghost use Rattle.std.specs.Prelude.{◌≡◌, IfOk, IsSome, Some, codes};
ghost use Rattle.page_http.specs.Routes.{Leads, after_prefix, destination_of};
ghost use Rattle.page_http.specs.Rows.{rows};

use matchit::{InsertError, Router};
use page_io::Memory;
use std::alloc::Global;

// The routes of the router.
#[derive(Clone, Copy)]
enum Route {
    Page,
    Number,
    Reload,
}

/// What a path asks for.
#[derive(Clone, Copy)]
pub enum Destination<'p> {
    /// `/p/` and the name of a page, which is one segment.
    Page(&'p str),
    /// `/set`: the number of the set.
    Number,
    /// `/reload`: a new set of the files.
    Reload,
}

/// The routes, which are made once and asked for each request.
#[derive(Drop)]
pub struct Routes {
    router: Router<Route>,
    ghost its: { router ≡ rows },
}

impl Routes {
    /// The routes. Fails only if allocation fails.
    pub fn new(alloc: Global) -> Result<Routes, Memory> {
        match make_router(alloc) {
            Ok(router) => Ok(Routes { router }),
            Err(_) => Err(Memory),
        }
    }

    /// Where a path leads, as it stands.
    pub fn find<'p>(&self, path: &'p str) -> Option<Destination<'p>>
        ensures { Leads (destination_of path.now) result }
    {
        match self.router.at(path) {
            Ok(found) => match found.value {
                Route::Page => Some(Destination::Page(after_p(path))),
                Route::Number => Some(Destination::Number),
                Route::Reload => Some(Destination::Reload),
            },
            Err(_) => None,
        }
    }
}

fn make_router(alloc: Global) -> Result<Router<Route>, InsertError>
    ensures { IfOk result (λ router. router ≡ rows) }
{
    let mut router = Router::new(alloc);
    router.insert("/p/{name}", Route::Page)?;
    router.insert("/set", Route::Number)?;
    router.insert("/reload", Route::Reload)?;
    Ok(router)
}

// What follows `/p/`.
fn after_p(path: &str) -> &str
    requires { IsSome (after_prefix (codes "/p/") path.now) }
    ensures { after_prefix (codes "/p/") path.now ≡ Some result.now }
{
    let (_, name) = path.split_at(3);
    name
}
