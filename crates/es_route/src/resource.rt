//! Which resource a path names.
ghost use Rattle.std.specs.Prelude.{◌≡◌, IfOk, OnOk};
ghost use Rattle.es_route.specs.Resources.{all_routes, resource_of, with_route};

use es_types::NoMemory;
use matchit::Router;
use std::alloc::Global;

/// What a path names.
#[derive(Clone, Copy)]
pub enum Resource {
    /// `/{index}`
    Index,
    /// `/{index}/_doc/{id}`
    Doc,
    /// `/_bulk`
    Bulk,
    /// `/{index}/_bulk`
    IndexBulk,
    /// `/{index}/_refresh`
    Refresh,
    /// `/{index}/_pit`
    OpenPit,
    /// `/_pit`
    ClosePit,
    /// `/_search`
    Search,
    /// `/{index}/_search`
    IndexSearch,
}

/// The routes that are built.
#[tactic(auto, unfolding(crate::specs::Resources::all_routes))]
pub fn routes(alloc: Global) -> Result<Router<Resource>, NoMemory>
    ensures { IfOk result (λ router. router ≡ all_routes) }
{
    let mut router = Router::new(alloc);
    add(&mut router, "/{index}", Resource::Index)?;
    add(&mut router, "/{index}/_doc/{id}", Resource::Doc)?;
    add(&mut router, "/_bulk", Resource::Bulk)?;
    add(&mut router, "/{index}/_bulk", Resource::IndexBulk)?;
    add(&mut router, "/{index}/_refresh", Resource::Refresh)?;
    add(&mut router, "/{index}/_pit", Resource::OpenPit)?;
    add(&mut router, "/_pit", Resource::ClosePit)?;
    add(&mut router, "/_search", Resource::Search)?;
    add(&mut router, "/{index}/_search", Resource::IndexSearch)?;
    Ok(router)
}

// No two of the routes conflict, so that only memory can run out.
fn add(router: &mut Router<Resource>, route: &str, resource: Resource) -> Result<(), NoMemory>
    ensures { OnOk result (router.new ≡ with_route route.now resource router.old) }
{
    match router.insert(route, resource) {
        Ok(()) => Ok(()),
        Err(_) => Err(NoMemory),
    }
}

/// The resource that a path names, as it is sent.
#[tactic(auto, unfolding(crate::specs::Resources::resource_of))]
pub fn resource_of(router: &Router<Resource>, path: &str) -> Option<Resource>
    requires { router.now ≡ all_routes }
    ensures { result ≡ resource_of path.now }
{
    match router.at(path) {
        Ok(found) => Some(*found.value),
        Err(_) => None,
    }
}
