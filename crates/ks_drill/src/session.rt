//! An identity and all the calls to it, one after the other.
ghost use Rattle.std.specs.Prelude.{◌≡◌, ◌+◌, ◌<◌, ◌^◌, IfOk};
ghost use Rattle.ks_service.specs.Called.{is_memory};
ghost use Rattle.ks_state.specs.Standing.{StandsWithAllKept};
ghost use Rattle.ks_drill.specs.Scripts.{IsAskable, asks, bare};

use crate::calls::call;
use ks_base::{Memory, Text};
use ks_machine::{Cause, Command, Reply};
use ks_outside::Open;
use ks_service::Answer;
use ks_state::Identity;
use ks_turn::{First, Pass, Turn};
use std::alloc::Global;
use std::marker::Model;
use std::sync::Wait;

/// An identity in its turn, the only pass of that, and how many calls were made. Contracts see the machine after these calls.
#[derive(Drop)]
pub(crate) struct Session<N: First> {
    alloc: Global,
    turn: Turn<Identity, N>,
    pass: Pass<N>,
    calls: u64,
}

impl<N: First> Model for Session<N> {
    ghost use Rattle.std.specs.Prelude.{◌≡◌};
    ghost use Rattle.std.specs.Coded.{codes};
    ghost use Rattle.ks_rule.specs.TreeCodes.{tree_code};
    ghost use Rattle.ks_drill.specs.Scripts.{Stage, bare};

    ghost Value = { Stage };

    ghost coded = { Prim.hlevel (codes, tree_code) };

    ghost view = { λ s. record { front = bare s.pass.seen; calls = s.calls } };

    ghost invariant = { λ s. (s.pass.turn ≡ s.turn) × (s.pass.weight ≡ 1000000) };
}

/// Whether a reply is for want of memory.
fn is_memory(reply: &Reply) -> bool
    ensures { result ≡ is_memory reply.now }
{
    matches!(reply, Reply::Refused(Cause::Memory))
}

impl<N: First> Session<N> {
    /// No call was made yet.
    pub(crate) fn new(alloc: Global, identity: Identity) -> Result<Session<N>, Memory>
        requires { StandsWithAllKept identity N.front }
        ensures { IfOk result (λ session. session ≡ record { front = bare N.front; calls = 0 }) }
    {
        match Turn::new(alloc, identity) {
            Ok((turn, pass)) => Ok(Session {
                alloc,
                turn,
                pass,
                calls: 0,
            }),
            Err(_) => Err(Memory),
        }
    }

    /// Makes the next call.
    pub(crate) fn ask<R: Wait>(
        self,
        rt: &R,
        command: Command,
        caller: Option<Text>,
        subject: Option<Text>,
    ) -> Result<(Session<N>, Reply), Memory>
        requires askable { IsAskable command }
        requires calls { self.calls < 2 ^ 32 }
        ensures told { IfOk result (λ told. told ≡ asks command caller subject self) }
        ensures calls { IfOk result (λ told. told.0.calls ≡ self.calls + 1) }
    {
        let Session {
            alloc,
            turn,
            pass,
            calls,
        } = self;
        let calls = calls + 1;
        let call = call(calls, command, caller, subject);
        let (pass, answer) = ks_service::call(alloc, &turn, rt, pass, &call, &Open, false);
        let Answer { reply, .. } = answer;
        if is_memory(&reply) {
            return Err(Memory);
        }
        let session = Session {
            alloc,
            turn,
            pass,
            calls,
        };
        Ok((session, reply))
    }
}
