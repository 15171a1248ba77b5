//! What is told of a request once it was answered.
ghost use Rattle.std.specs.Prelude.{◌≡◌};

use crate::causes::cause_text;
use crate::number::RequestNumber;
use ks_auth::is_system;
use ks_base::{Boxed, Memory, Text};
use ks_http::Request;
use ks_machine::{Call, Command, CredNamed, Named, Proof, Reply, UserNamed};
use ks_outside::{Answered, Desk, Scope, Who};
use ks_payload::Payload;
use std::alloc::Global;

/// The status of the response that says that there is no memory.
const MEMORY_STATUS: u16 = 503;

/// What is told of a request, where its desk is to be told of any. Nothing of it is in a reply.
#[derive(Drop)]
pub struct Account {
    alloc: Global,
    answered: Option<Answered>,
}

impl Account {
    /// Of a request that is about to be answered.
    pub fn of<P: Desk>(
        alloc: Global,
        desk: &P,
        number: RequestNumber,
        request: &Request,
    ) -> Account {
        if !desk.logs() {
            return Account {
                alloc,
                answered: None,
            };
        }
        let answered = Answered {
            connection: number.connection,
            request: number.request,
            method: request.method,
            path: request.path.copy().ok(),
            status: None,
            who: Who::Nobody,
            cause: None,
        };
        Account {
            alloc,
            answered: Some(answered),
        }
    }

    /// Whether the desk is to be told.
    pub fn is_kept(&self) -> bool {
        self.answered.is_some()
    }

    /// Notes of whom a call speaks.
    pub fn note_who(&mut self, call: &Call, caller: Option<&Boxed<Payload>>) {
        if let Some(answered) = &mut self.answered {
            answered.who = who_of(self.alloc, &call.command, caller);
        }
    }

    /// Notes what a request is refused for, if it is.
    pub fn note_reply(&mut self, reply: &Reply) {
        if let Some(answered) = &mut self.answered {
            answered.cause = match reply {
                Reply::Ok(_) => None,
                Reply::Refused(cause) => cause_text(self.alloc, cause).ok(),
            };
        }
    }

    /// Notes the status of the response.
    pub fn note_status(&mut self, status: u16) {
        if let Some(answered) = &mut self.answered {
            answered.status = Some(status);
        }
    }

    /// Notes that the response says that there was no memory.
    pub fn note_memory(&mut self) {
        self.note_status(MEMORY_STATUS);
        self.note_cause("Memory");
    }

    /// Notes for what there is no response.
    pub fn note_cause(&mut self, name: &str) {
        if let Some(answered) = &mut self.answered {
            answered.cause = Text::of(self.alloc, name).ok();
        }
    }

    /// Tells the desk, if it is to be told.
    pub fn tell<P: Desk>(&self, desk: &mut P)
        ensures { P.desk desk.new ≡ P.desk desk.old }
    {
        if let Some(answered) = &self.answered {
            desk.tell(answered);
        }
    }
}

/// Of whom a command speaks: the user that it names to log in, or the holder of the caller's token.
fn who_of(alloc: Global, command: &Command, caller: Option<&Boxed<Payload>>) -> Who {
    if let Command::Login(body) = command {
        if let Some(user) = user_named(&body.get().proof) {
            return who_logs_in(alloc, user).unwrap_or(Who::Nobody);
        }
    }
    match caller {
        Some(payload) => {
            let payload = payload.get();
            Who::Caller(payload.user, scope_of(payload))
        }
        None => Who::Nobody,
    }
}

/// The user that a login names, if it names one.
fn user_named(proof: &Proof) -> Option<&UserNamed> {
    match proof {
        Proof::Password(user, _) => Some(user),
        Proof::Totp(user, _) => Some(user),
        Proof::Both(user, _, _, _) => Some(user),
        Proof::AppCred(CredNamed::Name(_, user), _) => Some(user),
        Proof::AppCred(CredNamed::Id(_), _) => None,
        Proof::Token(_) => None,
    }
}

fn who_logs_in(alloc: Global, user: &UserNamed) -> Result<Who, Memory> {
    match user {
        UserNamed::Id(id) => Ok(Who::Login(*id)),
        UserNamed::Name(name, domain) => Ok(Who::LoginByName(
            name.copy()?,
            domain_text(alloc, domain)?,
        )),
    }
}

fn domain_text(alloc: Global, domain: &Named) -> Result<Text, Memory> {
    match domain {
        Named::Id(id) => Text::of(alloc, id.as_str()),
        Named::Name(name) => name.copy(),
    }
}

/// Where a token of this payload has its roles.
fn scope_of(payload: &Payload) -> Scope {
    match (payload.trust, payload.project, payload.domain) {
        (Some(trust), _, _) => Scope::Trust(trust),
        (None, Some(project), _) => Scope::Project(project),
        (None, None, Some(domain)) => Scope::Domain(domain),
        (None, None, None) if is_system(payload) => Scope::System,
        (None, None, None) => Scope::Unscoped,
    }
}
