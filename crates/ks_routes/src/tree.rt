ghost use Rattle.std.specs.Prelude.{◌≡◌, true, map, option_map};
ghost use Rattle.std.specs.Option.{option_copied};
ghost use Rattle.ks_routes.specs.Patterns.{segments};
ghost use Rattle.ks_routes.specs.Tables.{are_apart, found, row_of};

use crate::pattern::fits;
use crate::route::{Route, find};
use ks_base::{Memory, Text};
use matchit::{InsertError, Router};
use std::alloc::Global;

/// A search tree over the patterns of a table, with the place of each. A pattern that `matchit` refuses
/// is not in it.
pub fn plant<A>(alloc: Global, routes: &[Route<A>]) -> Result<Router<usize>, Memory> {
    let mut tree = Router::new(alloc);
    for (place, route) in routes.iter().enumerate() {
        if let Err(InsertError::OutOfMemory) = tree.insert(route.pattern, place) {
            return Err(Memory);
        }
    }
    Ok(tree)
}

/// The place of a route that the path may fit.
pub fn guess(tree: &Router<usize>, path: &str) -> Option<usize> {
    tree.at(path).ok().map(|found| *found.value)
}

/// The route that the path fits. The tree only says where to look first.
pub fn find_by<'r, A>(
    tree: &Router<usize>,
    routes: &'r [Route<A>],
    path: &Text,
) -> Option<&'r Route<A>>
    requires { are_apart (map row_of routes.now) ≡ true }
    ensures { option_map row_of (option_copied result) ≡ found (map row_of routes.now) (segments path.now) }
{
    if let Some(place) = guess(tree, path.as_str())
        && let Some(route) = routes.get(place)
        && fits(route.pattern.as_bytes(), path.as_slice())
    {
        return Some(route);
    }
    find(routes, path.as_slice())
}
