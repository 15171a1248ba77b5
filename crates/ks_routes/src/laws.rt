//! What holds of the definitions that the contracts cite. Each law is the contract of a function that
//! does nothing.
ghost use Rattle.std.specs.Prelude.{◌≡◌, ◌≢◌, ◌↔◌, ℕ, List, true, false, Some, Contains, codes, slice_get};
ghost use Rattle.ks_base.specs.Ids.{IsId};
ghost use Rattle.ks_base.specs.declared.method.Method.{Method};
ghost use Rattle.ks_base.specs.declared.method.Method.TheVariants.{Get, Other};
ghost use Rattle.ks_http.specs.declared.request.Request.{Request};
ghost use Rattle.ks_machine.specs.declared.command.Command.{Command};
ghost use Rattle.ks_machine.specs.declared.command.Command.TheVariants.{Version, Versions};
ghost use Rattle.ks_routes.specs.declared.action.Action.{Action};
ghost use Rattle.ks_routes.specs.declared.routed.Routed.TheVariants as routed;
ghost use Rattle.ks_base.specs.Ids.{is_id};
ghost use Rattle.ks_routes.specs.Patterns.{fits, segments};
ghost use Rattle.ks_routes.specs.Ranges.{CommandsAreInRange, CommandsAreWhole};
ghost use Rattle.ks_routes.specs.Tables.{Row};
ghost use Rattle.ks_routes.specs.Routes.{command_of, table};

/// `GET` asks for the version document at `/v3` and at `/v3/`.
pub fn version_has_two_paths()
    ensures bare { (request : Request) → request.method ≡ Get → request.path ≡ codes "/v3" → command_of request ≡ routed.Command Version }
    ensures slash { (request : Request) → request.method ≡ Get → request.path ≡ codes "/v3/" → command_of request ≡ routed.Command Version }
{}

/// `GET` asks for the versions of the API at `/`.
pub fn versions_have_a_path()
    ensures { (request : Request) → request.method ≡ Get → request.path ≡ codes "/" → command_of request ≡ routed.Command Versions }
{}

/// No path fits two routes of the table.
pub fn paths_have_one_route()
    ensures { (i j : ℕ) (a b : Row Action) (path : List ℕ) → slice_get table i ≡ Some a → slice_get table j ≡ Some b
        → fits a.pattern (segments path) ≡ true → fits b.pattern (segments path) ≡ true → i ≡ j }
{}

/// Each route of the table is that of some path.
pub fn routes_are_reached()
    ensures { (k : ℕ) (row : Row Action) → slice_get table k ≡ Some row → (path : List (List ℕ)) × (fits row.pattern path ≡ true) }
{}

/// A request has no route exactly where its path fits no pattern.
pub fn unrouted_paths_fit_nothing()
    ensures { (request : Request) → (command_of request ≡ routed.NoRoute)
        ↔ ((k : ℕ) (row : Row Action) → slice_get table k ≡ Some row → fits row.pattern (segments request.path) ≡ false) }
{}

/// A method that is not listed is told those that the path has, and only those: a request with one of them and the same
/// path is told none.
pub fn listed_methods_are_taken()
    ensures { (request : Request) (methods : List Method) → command_of request ≡ routed.NoMethod methods → (m : Method)
        → Contains methods m ↔ ((others : List Method) → command_of (record request { method = m }) ≢ routed.NoMethod others) }
{}

/// No route has a method outside of the six.
pub fn other_methods_have_no_command()
    ensures { (request : Request) (command : Command) → request.method ≡ Other → command_of request ≢ routed.Command command }
{}

/// What the table says needs no memory.
pub fn routing_is_total()
    ensures { (request : Request) → command_of request ≢ routed.Memory }
{}

/// A segment stands for an id exactly where it is one.
pub fn ids_are_ids()
    ensures { (segment : List ℕ) → (is_id segment ≡ true) ↔ IsId segment }
{}

/// Each command that a request makes has its fields in range: what was read of a body, the kind of a row, and the place of
/// a grant.
pub fn commands_are_in_range()
    ensures { CommandsAreInRange }
{}

/// No request makes a command that lacks the token that it is about, or the user of a listing of effective roles: such a request
/// is refused before it is a command.
pub fn commands_are_whole()
    ensures { CommandsAreWhole }
{}
