ghost use Rattle.ks_routes.specs.Routes.{Answers, command_of};

use crate::routed::{Routed, respond};
use crate::table::rows;
use crate::tree::{find_by, plant};
use ks_base::Memory;
use ks_http::Request;
use matchit::Router;
use std::alloc::Global;

/// The table of the Identity API v3 with a search tree over its patterns, made once.
#[derive(Drop)]
pub struct Routes {
    tree: Router<usize>,
}

impl Routes {
    /// The table with its tree.
    pub fn new(alloc: Global) -> Result<Routes, Memory> {
        Ok(Routes {
            tree: plant(alloc, rows())?,
        })
    }

    /// What the table makes of a request.
    pub fn command(&self, alloc: Global, request: &Request) -> Routed
        ensures { Answers (command_of request.now) result }
    {
        respond(alloc, find_by(&self.tree, rows(), &request.path), request)
    }
}
