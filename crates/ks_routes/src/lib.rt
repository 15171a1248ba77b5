//! From a request of HTTP to the command of the identity machine that its route names. The routes are a
//! table, and a path fits one of them at most.
#![tactic(auto)]

mod action;
mod asking;
mod captured;
mod filters;
mod laws;
mod methods;
mod pattern;
mod query;
mod route;
mod routed;
mod routes;
mod segments;
mod table;
mod tree;

pub use action::{Action, ActorKind, GrantRoute, TargetKind};
pub use laws::{
    commands_are_in_range, commands_are_whole, ids_are_ids, listed_methods_are_taken,
    other_methods_have_no_command, paths_have_one_route, routes_are_reached, routing_is_total,
    unrouted_paths_fit_nothing, version_has_two_paths, versions_have_a_path,
};
pub use methods::Methods;
pub use route::{Route, find};
pub use routed::{Routed, command};
pub use routes::Routes;
pub use table::rows;
pub use tree::{find_by, guess, plant};
