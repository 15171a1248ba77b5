ghost use Rattle.std.specs.Prelude.{◌≡◌, IfOk, filter, is_some};
ghost use Rattle.ks_routes.specs.Tables.{action_of, allowed};

use ks_base::{Memory, Method, MethodList};
use std::alloc::Global;

/// The methods that a route may have, in the order in which `Allow` lists them.
const METHODS: [Method; 6] = [
    Method::Get,
    Method::Head,
    Method::Post,
    Method::Patch,
    Method::Put,
    Method::Delete,
];

/// What each method asks for, where the route has it.
pub struct Methods<A> {
    pub get: Option<A>,
    pub head: Option<A>,
    pub post: Option<A>,
    pub patch: Option<A>,
    pub put: Option<A>,
    pub delete: Option<A>,
}

impl<A: Copy> Methods<A> {
    /// What the method asks for.
    pub fn action(&self, method: Method) -> Option<A>
        ensures { result ≡ action_of method self.now }
    {
        match method {
            Method::Get => self.get,
            Method::Head => self.head,
            Method::Post => self.post,
            Method::Patch => self.patch,
            Method::Put => self.put,
            Method::Delete => self.delete,
            Method::Other => None,
        }
    }

    /// The methods that the route has.
    pub fn allowed(&self, alloc: Global) -> Result<MethodList, Memory>
        ensures { IfOk result (λ methods. methods ≡ allowed self.now) }
    {
        self.those_of(alloc, &METHODS)
    }

    /// Those of these methods that the route has.
    fn those_of(&self, alloc: Global, methods: &[Method]) -> Result<MethodList, Memory>
        ensures { IfOk result (λ kept. kept ≡ filter (λ method. is_some (action_of method self.now)) methods.now) }
    {
        let kept = methods
            .iter()
            .copied()
            .filter(|method| self.action(*method).is_some())
            .collect(alloc)?;
        Ok(MethodList::from_vec(kept))
    }
}
