//! Methods and parameters that aren't built yet.
ghost use Rattle.std.specs.Prelude.{◌≡◌};
ghost use Rattle.es_route.specs.Answers.{Answers};
ghost use Rattle.es_route.specs.Methods.{check_built, gets_or_posts, is_method, puts_or_posts};

use crate::params::{has_param, params_of};
use http_wire::Request;
use reply_json::RestFault;
use std::alloc::Global;

/// Whether a request has this method.
pub fn is_method(name: &str, request: &Request) -> bool
    ensures { result ≡ is_method name.now request.now }
{
    request.method.as_str() == name
}

/// Whether a request is a PUT or a POST.
pub fn puts_or_posts(request: &Request) -> bool
    ensures { result ≡ puts_or_posts request.now }
{
    is_method("PUT", request) || is_method("POST", request)
}

/// Whether a request is a GET or a POST.
pub fn gets_or_posts(request: &Request) -> bool
    ensures { result ≡ gets_or_posts request.now }
{
    is_method("GET", request) || is_method("POST", request)
}

/// A method that a route doesn't take, or the parameter `pretty`: neither is built yet.
pub fn check_built(alloc: Global, taken: bool, request: &Request) -> Result<(), RestFault>
    ensures { Answers result (check_built taken request.now) }
{
    if !taken {
        return Err(RestFault::NotBuilt);
    }
    let params = params_of(alloc, request.query.as_slice())?;
    if has_param("pretty", &params) {
        return Err(RestFault::NotBuilt);
    }
    Ok(())
}
