ghost use Rattle.std.specs.Prelude.{◌≡◌, ◌<◌};
ghost use Rattle.ks_base.specs.declared.limits.TheConstants.{CONNECTION_REQUESTS};
ghost use Rattle.ks_outside.specs.Desks.{DeskState};
ghost use Rattle.ks_outside.specs.Files.{DirState};
ghost use Rattle.ks_routes.specs.declared.routed.Routed.TheVariants as routed;
ghost use Rattle.ks_routes.specs.Routes.{command_of};
ghost use Rattle.ks_server.specs.Ties.{KeepsLinks};
ghost use Rattle.ks_server.specs.steps.Answers.{Answers, Exchanges, IsReadied, Refuses};

use crate::account::Account;
use crate::closed::Closed;
use crate::draws::draw;
use crate::folder::{has_failed, read_folder};
use crate::number::RequestNumber;
use crate::replied::{Replied, is_memory};
use crate::requests::{call_of, is_head, is_last};
use crate::respond::{give_up, respond};
use ks_base::{Drawn, Receipt, Text};
use ks_http::Request;
use ks_machine::{Cause, Command, Reply};
use ks_outside::{Desk, Gate, KeyDir, Sink};
use ks_routes::{Routed, Routes};
use ks_service::{Answer, Recent, next_call};
use ks_state::Decides;
use ks_targets::required;
use ks_turn::{First, Pass, Turn};
use std::alloc::Global;
use std::sync::Wait;

/// What all connections of a server share.
#[derive(Drop)]
pub struct Server<'a, I: Decides, N: First, R, G> {
    pub alloc: Global,
    pub turn: &'a Turn<I, N>,
    pub rt: &'a R,
    pub gate: &'a G,
    pub routes: &'a Routes,
    /// The public URL.
    pub url: &'a Text,
}

impl<I: Decides, N: First, R: Wait, G: Gate> Server<'_, I, N, R, G> {
    /// Answers a request before another is read, and tells the desk of it where it is to be told. After an error the
    /// connection ends with it. `recent` is what the worker remembers of its calls.
    pub fn answer<P: Desk, D: KeyDir, K: Sink>(
        &self,
        pass: Pass<N>,
        desk: &mut P,
        dir: &mut D,
        number: RequestNumber,
        request: Request,
        sink: &mut K,
        recent: &mut Recent,
    ) -> (Pass<N>, Result<(), Closed<I::Fault>>)
        requires own { pass.turn ≡ self.now.turn.now }
        requires url { self.now.url.now ≡ pass.seen.opening.settings.url }
        requires few { number.request < CONNECTION_REQUESTS }
        ensures links { KeepsLinks (P.desk desk.old) (P.desk desk.new) }
        ensures answers { Answers pass result.0 (P.desk desk.old) (P.desk desk.new) (D.dir dir.old) (D.dir dir.new) number request (K.stream sink.old) (K.stream sink.new) result.1 }
    {
        let mut account = Account::of(self.alloc, desk, number, &request);
        let (pass, result) = self.respond_to(
            pass,
            desk,
            dir,
            number,
            request,
            sink,
            &mut account,
            recent,
        );
        account.tell(desk);
        (pass, result)
    }

    /// Answers a request. The account notes what is to be told of it.
    fn respond_to<P: Desk, D: KeyDir, K: Sink>(
        &self,
        pass: Pass<N>,
        desk: &mut P,
        dir: &mut D,
        number: RequestNumber,
        request: Request,
        sink: &mut K,
        account: &mut Account,
        recent: &mut Recent,
    ) -> (Pass<N>, Result<(), Closed<I::Fault>>)
        requires own { pass.turn ≡ self.now.turn.now }
        requires url { self.now.url.now ≡ pass.seen.opening.settings.url }
        requires few { number.request < CONNECTION_REQUESTS }
        ensures links { KeepsLinks (P.desk desk.old) (P.desk desk.new) }
        ensures answers { Answers pass result.0 (P.desk desk.old) (P.desk desk.new) (D.dir dir.old) (D.dir dir.new) number request (K.stream sink.old) (K.stream sink.new) result.1 }
    {
        let head = is_head(request.method);
        let close = is_last(&request, number.request);
        let (pass, replied) = self.exchange(pass, desk, dir, number, request, account, recent);
        match replied {
            Replied::Reply(reply) => {
                account.note_reply(&reply);
                let result = respond(self.alloc, &reply, self.url, head, close, sink, account);
                drop(reply);
                (pass, result)
            }
            Replied::KeeperFault(why) => {
                account.note_cause("KeeperFault");
                (pass, Err(Closed::KeeperFault(why)))
            }
            Replied::Memory => {
                account.note_memory();
                (pass, Err(give_up(sink)))
            }
        }
    }

    /// Decides a request, once there is room for its receipt.
    fn exchange<P: Desk, D: KeyDir>(
        &self,
        pass: Pass<N>,
        desk: &mut P,
        dir: &mut D,
        number: RequestNumber,
        request: Request,
        account: &mut Account,
        recent: &mut Recent,
    ) -> (Pass<N>, Replied<I::Fault>)
        requires own { pass.turn ≡ self.now.turn.now }
        ensures links { KeepsLinks (P.desk desk.old) (P.desk desk.new) }
        ensures exchanges { Exchanges pass result.0 (P.desk desk.old) (P.desk desk.new) (D.dir dir.old) (D.dir dir.new) number request result.1 }
    {
        let Ok(()) = desk.ready() else {
            drop(request);
            return (pass, Replied::Memory);
        };
        match self.routes.command(self.alloc, &request) {
            Routed::Command(command) => {
                self.decide(pass, desk, dir, number, request, command, account, recent)
            }
            Routed::Refused(fault) => refuse(pass, desk, number, request, Cause::Shape(fault)),
            Routed::NoRoute => refuse(pass, desk, number, request, Cause::NoRoute),
            Routed::NoMethod(methods) => {
                refuse(pass, desk, number, request, Cause::NoMethod(methods))
            }
            Routed::Memory => {
                drop(request);
                (pass, Replied::Memory)
            }
        }
    }

    /// Decides the command of a request, with the clock's reading, and with the keys of the folder and random bytes
    /// where it asks for them.
    fn decide<P: Desk, D: KeyDir>(
        &self,
        pass: Pass<N>,
        desk: &mut P,
        dir: &mut D,
        number: RequestNumber,
        request: Request,
        command: Command,
        account: &mut Account,
        recent: &mut Recent,
    ) -> (Pass<N>, Replied<I::Fault>)
        requires own { pass.turn ≡ self.now.turn.now }
        requires room { 0 < (P.desk desk.old).receipt_room }
        requires is { command_of request ≡ routed.Command command }
        ensures links { KeepsLinks (P.desk desk.old) (P.desk desk.new) }
        ensures exchanges { (before : DeskState P.Link) → IsReadied before (P.desk desk.old) → Exchanges pass result.0 before (P.desk desk.new) (D.dir dir.old) (D.dir dir.new) number request result.1 }
    {
        let asked = required(&command);
        let Ok(folder) = read_folder(asked.loads, dir) else {
            drop(request);
            drop(command);
            return (pass, Replied::Memory);
        };
        let failed = has_failed(&folder);
        let reading = desk.reading();
        let draw = draw(asked.draws, desk);
        let call = call_of(request, command, reading, draw, folder);
        let (pass, answer) = next_call(
            self.alloc,
            self.turn,
            self.rt,
            pass,
            &call,
            self.gate,
            account.is_kept(),
            recent,
        );
        let Answer {
            reply,
            changes,
            moment,
            kept,
            caller,
        } = answer;
        account.note_who(&call, caller.as_ref());
        drop(call);
        desk.note(Receipt {
            connection: number.connection,
            request: number.request,
            changes,
            moment,
            draw,
            folder: failed,
            memory: is_memory(&reply),
        });
        (pass, Replied::of(kept, reply))
    }
}

/// Notes the receipt of a request that is refused before any call. Its place is where the pass stands.
fn refuse<N: First, P: Desk, F: Drop>(
    pass: Pass<N>,
    desk: &mut P,
    number: RequestNumber,
    request: Request,
    why: Cause,
) -> (Pass<N>, Replied<F>)
    requires room { 0 < (P.desk desk.old).receipt_room }
    requires refused { Refuses (command_of request) why }
    ensures links { KeepsLinks (P.desk desk.old) (P.desk desk.new) }
    ensures exchanges { (before : DeskState P.Link) (dir : DirState) → IsReadied before (P.desk desk.old) → Exchanges pass result.0 before (P.desk desk.new) dir dir number request result.1 }
{
    drop(request);
    let (changes, moment) = pass.front();
    desk.note(Receipt {
        connection: number.connection,
        request: number.request,
        changes,
        moment,
        draw: Drawn::Unused,
        folder: false,
        memory: false,
    });
    (pass, Replied::Reply(Reply::Refused(why)))
}
