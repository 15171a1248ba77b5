ghost use Rattle.std.specs.Prelude.{option_map};
ghost use Rattle.std.specs.Option.{option_copied};
ghost use Rattle.ks_routes.specs.Tables.{row_of};
ghost use Rattle.ks_routes.specs.Routes.{Answers, routed_by, command_of};

use crate::action::Action;
use crate::captured::Captured;
use crate::route::{Route, find};
use crate::table::rows;
use ks_base::{Memory, MethodList, ShapeFault};
use ks_http::Request;
use ks_machine::Command;
use std::alloc::Global;

/// What the routes make of a request.
#[derive(Drop)]
pub enum Routed {
    /// The command that the request's path and method name.
    Command(Command),
    /// The request's body is not what its route asks for, by its first fault; or the request lacks the token that it is about
    /// or a field of its query (`Missing`).
    Refused(ShapeFault),
    /// No route has the path.
    NoRoute,
    /// The path's route does not have the method, but these, in the order in which `Allow` lists them.
    NoMethod(MethodList),
    /// There was no memory for what the answer holds.
    Memory,
}

/// What the path's route makes of a request.
pub fn respond(alloc: Global, route: Option<&Route<Action>>, request: &Request) -> Routed
    ensures { Answers (routed_by (option_map row_of (option_copied route.entry)) request.now) result }
{
    let Some(route) = route else {
        return Routed::NoRoute;
    };
    match route.methods.action(request.method) {
        Some(action) => {
            let ids = Captured::of(route.pattern.as_bytes(), request.path.as_slice());
            action.command(alloc, &ids, request)
        }
        None => match route.methods.allowed(alloc) {
            Ok(methods) => Routed::NoMethod(methods),
            Err(Memory) => Routed::Memory,
        },
    }
}

/// What the table of the Identity API v3 makes of a request.
pub fn command(alloc: Global, request: &Request) -> Routed
    ensures { Answers (command_of request.now) result }
{
    respond(alloc, find(rows(), request.path.as_slice()), request)
}
