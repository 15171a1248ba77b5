ghost use Rattle.std.specs.Prelude.{◌≡◌, ◌≢◌, ℕ, List, Some, Err, IfErr};
ghost use Rattle.ks_machine.specs.Told.{IsTellable};
ghost use Rattle.ks_outside.specs.Streams.{OnlyWrites};
ghost use Rattle.ks_render.specs.Answers.{wire};
ghost use Rattle.ks_server.specs.steps.Answers.{GivesUp, IsUnwritten, RefusesBytes, Writes};

use crate::account::Account;
use crate::closed::Closed;
use ks_base::Text;
use ks_http::{HttpCause, write_memory, write_response};
use ks_machine::Reply;
use ks_outside::Sink;
use ks_render::{render, render_bad};
use std::alloc::Global;

/// Writes the response that tells a reply. The account notes its status.
pub fn respond<K: Sink, F: Drop>(
    alloc: Global,
    reply: &Reply,
    url: &Text,
    head: bool,
    close: bool,
    sink: &mut K,
    account: &mut Account,
) -> Result<(), Closed<F>>
    requires { IsTellable reply.now }
    ensures told { (before : List ℕ) → (K.stream sink.old).written ≡ Some before → Writes (wire reply.now url.now head close) before (K.stream sink.new).written result }
    ensures writes { OnlyWrites (result ≡ Err Closed.WriteFault) (K.stream sink.old) (K.stream sink.new) }
    ensures others { IfErr result IsUnwritten }
{
    let Ok(response) = render(alloc, reply, url, head, close) else {
        account.note_memory();
        return Err(give_up(sink));
    };
    account.note_status(response.status);
    let Ok(()) = write_response(sink, &response) else {
        return Err(Closed::WriteFault);
    };
    Ok(())
}

/// Writes the response to bytes that are no request.
pub fn refuse_bytes<K: Sink, F: Drop>(alloc: Global, cause: HttpCause, sink: &mut K) -> Closed<F>
    ensures told { (before : List ℕ) → (K.stream sink.old).written ≡ Some before → RefusesBytes cause before (K.stream sink.new).written result }
    ensures writes { OnlyWrites (result ≡ Closed.WriteFault) (K.stream sink.old) (K.stream sink.new) }
    ensures reads { result ≢ Closed.ReadFault }
    ensures rests { result ≢ Closed.Rests }
{
    let Ok(response) = render_bad(alloc, &cause) else {
        return give_up(sink);
    };
    let Ok(()) = write_response(sink, &response) else {
        return Closed::WriteFault;
    };
    Closed::BadHttp(cause)
}

/// Writes the response that says that there is no memory, which takes none.
pub fn give_up<K: Sink, F: Drop>(sink: &mut K) -> Closed<F>
    ensures told { (before : List ℕ) → (K.stream sink.old).written ≡ Some before → GivesUp before (K.stream sink.new).written result }
    ensures writes { OnlyWrites (result ≡ Closed.WriteFault) (K.stream sink.old) (K.stream sink.new) }
    ensures others { IsUnwritten result }
{
    let Ok(()) = write_memory(sink) else {
        return Closed::WriteFault;
    };
    Closed::Memory
}
