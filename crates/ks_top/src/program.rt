ghost use Rattle.std.specs.Prelude.{◌≡◌, ◌<◌, ◌∷◌, List, length, IfSome};
ghost use Rattle.ks_keep.specs.Books.{seen_by};
ghost use Rattle.ks_keeper.specs.Keeper.{IsTidy};
ghost use Rattle.ks_words.specs.Words.{words_of};
ghost use Rattle.ks_commands.specs.Ending.{status_of};
ghost use Rattle.ks_top.specs.Headline.{Headline};
ghost use Rattle.ks_top.specs.Runs.{Runs};
ghost use Rattle.ks_top.specs.World.{HasKeeper};
ghost use Rattle.ks_top.specs.steps.Ends.{keeper_at, state_at};

use crate::drill::drill;
use crate::laws::{
    changes_are_determined, commands_complete, connections_complete, desk_faults_are_counted,
    refused_ever_after, requests_complete, restart_forgets_nothing, told_is_kept,
};
use crate::outcome::Outcome;
use crate::serve::serve;
use crate::talk::talk;
use ks_base::Text;
use ks_commands::Fault;
use ks_commands::check::check;
use ks_commands::key_folder::{rotate, set_up};
use ks_commands::password::make_record;
use ks_drill::drill_says_one_line;
use ks_keep::Booked;
use ks_keeper::Keeper;
use ks_outside::{Desk, KeyDir, Sink, Source};
use ks_tokens::{ended_tokens_are_not_found, ended_tokens_stay_refused, tokens_validate_exactly};
use ks_words::{Words, read_words};
use std::marker::Brand;
use std::sync::Wait;
use std::thread::Threads;

/// How the program ended: the status of its process, and the fault where that is not 0; the desks with their folders;
/// the identity as it then was, with its keeper, where one was opened, and else the keeper.
#[derive(Drop)]
pub struct Ended<P, D, B: Keeper> {
    pub status: u8,
    pub fault: Option<Fault>,
    pub desks: Vec<(P, D)>,
    pub state: Option<Booked<B, Brand>>,
    pub keeper: Option<B>,
}

/// Does what the words say, on an input, an opening file and an output, a folder of keys, and desks, each with a
/// folder of its own. All desks come back in their order; of a command other than `serve` all but the first as they are.
///
/// Wherever an identity was opened, all that its clients were told is told by one journal (clause `headline`). What follows
/// from the contract alone is said by the laws that the body calls.
///
/// `check` reads a Fernet key and lines of a moment and a token, and answers which tokens are refused.
/// `talk FILE FOLDER` opens an identity from the file, which may take its keys from the folder `dir`, or goes on from what
/// the keeper holds, if that began with the same file; and serves one connection of HTTP/1.1: it reads requests and writes a
/// response to each, once the keeper has each change that the response can show. A call that loads keys reads the first
/// desk's folder. `setup FOLDER` makes the keys of an empty folder, and `rotate FOLDER` rotates them; both say which
/// indices the folder then has.
///
/// `password [--rounds N]` reads a password, the first line of the input, and writes what an opening file may hold in its
/// place: the text of its record, derived with 16 random bytes of the first desk.
///
/// `drill START COUNT` makes calls to an identity of its own, and writes a line that counts their replies. Nothing but the output
/// is touched.
///
/// `serve FILE FOLDER ADDRESS [--workers N] [--connections N]` begins as `talk` does, and serves with the first
/// N desks beside each other, 4 where N is not said and never more than there are. Each accepts links and serves them one
/// after the other, until no more come, an accept fails, or it had its number of them, if one other than 0 is said; its own
/// folder is the one from which calls load keys. Input and output are left alone. The address is for who makes the desks.
///
/// The statuses: 0 where the input was read and answered whole, or to the request or the refusal that
/// ends the connection, or where the desks had no more links or their number of them; 2 where the words are not a
/// command's; 3 where the input or the opening file could not be read; 4 where the output could not be written; 5 for want
/// of memory; 6 where a line of `check` is not in the grammar, or what `password` reads is no password; 7 where the opening file is refused; 8 where the folder
/// failed; 9 where it has no keys, or bad or too many ones; 10 where there were no random bytes, or where an identity was
/// opened and a desk's accept failed; 11 where `setup` found keys; 12 where `rotate` found the last index of all; 13 where the
/// keeper failed; 14 where what it holds began with another file; 15 where an entry that it holds can't follow those before.
pub fn run<
    R: AllocGlobal + Threads + Wait + Sync,
    S: Source,
    F: Source,
    K: Sink,
    D: KeyDir + Send + Drop,
    P: Desk + Send + Drop,
    B: Keeper + Send + Drop,
>(
    rt: &R,
    words: &[Text],
    input: &mut S,
    file: &mut F,
    output: &mut K,
    dir: &mut D,
    desks: Vec<(P, D)>,
    keeper: B,
) -> Ended<P, D, B>
where
    P::Link: Send,
    requires some { 0 < length desks.items }
    requires tidy { B.whole keeper → IsTidy (B.kept keeper) }
    ensures status { result.status ≡ status_of result.fault }
    ensures headline { (first : P × D) (others : List (P × D)) → desks.items ≡ first ∷ others → (after : P × D) × (rest : List (P × D)) × (kept : B) × (result.desks.items ≡ after ∷ rest) × HasKeeper result.state result.keeper kept
        × IfSome result.state (Headline (seen_by B.kept B.whole B.faults) (λ (d : P × D). record { desk = P.desk d.0; dir = D.dir d.1 }) P.Link.stream (words_of words.now)
        (record { input = S.stream input.old; file = F.stream file.old; output = K.stream output.old; dir = D.dir dir.old; desk = P.desk first.0; place = D.dir first.1; others = others; keeper = keeper })
        (record { input = S.stream input.new; file = F.stream file.new; output = K.stream output.new; dir = D.dir dir.new; desk = P.desk after.0; place = D.dir after.1; others = rest; keeper = kept })
        result.fault) }
    ensures runs { (first : P × D) (others : List (P × D)) → desks.items ≡ first ∷ others → (after : P × D) × (rest : List (P × D)) × (kept : B) × (result.desks.items ≡ after ∷ rest) × HasKeeper result.state result.keeper kept
        × Runs (seen_by B.kept B.whole B.faults) (λ (d : P × D). record { desk = P.desk d.0; dir = D.dir d.1 }) P.Link.stream words.now
        (record { input = S.stream input.old; file = F.stream file.old; output = K.stream output.old; dir = D.dir dir.old; desk = P.desk first.0; place = D.dir first.1; others = others; keeper = keeper })
        (record { input = S.stream input.new; file = F.stream file.new; output = K.stream output.new; dir = D.dir dir.new; desk = P.desk after.0; place = D.dir after.1; others = rest; keeper = kept })
        result.fault result.state }
{
    // What holds of all that the contract says.
    commands_complete::<P::Link, (P, D), B>();
    connections_complete();
    desk_faults_are_counted::<P::Link, (P, D), B>();
    changes_are_determined::<P::Link, (P, D), B>();
    requests_complete();
    tokens_validate_exactly();
    ended_tokens_stay_refused();
    ended_tokens_are_not_found();
    refused_ever_after::<P::Link, (P, D), B>();
    told_is_kept::<P::Link, (P, D), B>();
    restart_forgets_nothing::<P::Link, (P, D), B>();
    drill_says_one_line();
    let (Outcome { fault, end }, desks) = run_command(
        rt, words, input, file, output, dir, desks, keeper,
    );
    let (state, keeper) = end.into_parts();
    Ended {
        status: status(&fault),
        fault,
        desks,
        state,
        keeper,
    }
}

/// The status of a process that ends by this fault, or whole.
fn status(fault: &Option<Fault>) -> u8
    ensures { result ≡ status_of fault.now }
{
    match fault {
        None => 0,
        Some(fault) => fault.status(),
    }
}

/// Does what the words say. The desks come back in their order.
fn run_command<
    R: AllocGlobal + Threads + Wait + Sync,
    S: Source,
    F: Source,
    K: Sink,
    D: KeyDir + Send + Drop,
    P: Desk + Send + Drop,
    B: Keeper + Send + Drop,
>(
    rt: &R,
    words: &[Text],
    input: &mut S,
    file: &mut F,
    output: &mut K,
    dir: &mut D,
    mut desks: Vec<(P, D)>,
    keeper: B,
) -> (Outcome<B>, Vec<(P, D)>)
where
    P::Link: Send,
    requires some { 0 < length desks.items }
    requires tidy { B.whole keeper → IsTidy (B.kept keeper) }
    ensures { (first : P × D) (others : List (P × D)) → desks.items ≡ first ∷ others → (after : P × D) × (rest : List (P × D)) × (result.1.items ≡ after ∷ rest)
        × Runs (seen_by B.kept B.whole B.faults) (λ (d : P × D). record { desk = P.desk d.0; dir = D.dir d.1 }) P.Link.stream words.now
        (record { input = S.stream input.old; file = F.stream file.old; output = K.stream output.old; dir = D.dir dir.old; desk = P.desk first.0; place = D.dir first.1; others = others; keeper = keeper })
        (record { input = S.stream input.new; file = F.stream file.new; output = K.stream output.new; dir = D.dir dir.new; desk = P.desk after.0; place = D.dir after.1; others = rest; keeper = keeper_at result.0.end })
        result.0.fault (state_at result.0.end) }
{
    match read_words(rt.alloc(), words) {
        Ok(Words::Check) => (Outcome::of(check(rt.alloc(), input, output), keeper), desks),
        Ok(Words::Talk(_places)) => {
            let (desk, place) = &mut desks[0];
            let outcome = talk(rt, input, file, output, dir, desk, place, keeper);
            (outcome, desks)
        }
        Ok(Words::Serve(places, connections)) => {
            serve(rt, file, dir, desks, places.workers, connections, keeper)
        }
        Ok(Words::Setup(_places)) => {
            let (desk, _place) = &mut desks[0];
            let outcome = Outcome::of(set_up(dir, desk, output), keeper);
            (outcome, desks)
        }
        Ok(Words::Rotate(_places, max)) => {
            let (desk, _place) = &mut desks[0];
            let outcome = Outcome::of(rotate(rt.alloc(), dir, desk, max, output), keeper);
            (outcome, desks)
        }
        Ok(Words::Password(rounds)) => {
            let (desk, _place) = &mut desks[0];
            let outcome = Outcome::of(make_record(rt.alloc(), rounds, input, desk, output), keeper);
            (outcome, desks)
        }
        Ok(Words::Drill(start, count)) => {
            (Outcome::of(drill(rt, start, count, output), keeper), desks)
        }
        Ok(Words::Usage) => (Outcome::stopped(Fault::Usage, keeper), desks),
        Err(_) => (Outcome::stopped(Fault::Memory, keeper), desks),
    }
}
