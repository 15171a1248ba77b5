ghost use Rattle.std.specs.Prelude.{◌≡◌, map, option_map};
ghost use Rattle.std.specs.Option.{option_copied};
ghost use Rattle.ks_routes.specs.Patterns.{segments};
ghost use Rattle.ks_routes.specs.Tables.{found, row_of};

use crate::methods::Methods;
use crate::pattern::fits;

/// A row of a table of routes.
pub struct Route<A> {
    /// The path, with a word in braces for each id, as `/v3/users/{user}`.
    pub pattern: &'static str,
    pub methods: Methods<A>,
}

/// The first route whose pattern the path fits.
#[tactic(auto, unfolding(crate::specs::Tables::found))]
pub fn find<'r, A>(routes: &'r [Route<A>], path: &[u8]) -> Option<&'r Route<A>>
    ensures { option_map row_of (option_copied result) ≡ found (map row_of routes.now) (segments path.now) }
{
    for route in routes {
        if fits(route.pattern.as_bytes(), path) {
            return Some(route);
        }
    }
    None
}
