//! A call of an identity that nobody else calls.
ghost use Rattle.std.specs.Prelude.{◌≡◌};

use crate::calls::{BOB, READING, change_password, id};
use crate::cases::World;
use crate::opening;
use anyhow::{Result, bail, ensure};
use ks_base::{EventRow, Revoke};
use ks_machine::{BodyOut, Reply};
use ks_service::answer_alone;
use ks_state::Identity;

/// bob changes his password: the one that he shows is derived, and then the new one. What ended with that is told.
pub fn try_case<R: AllocGlobal>(rt: &R, world: &World) -> Result<()> {
    let alloc = rt.alloc();
    let Ok(mut identity) = Identity::open(alloc, opening::read(alloc, world.file())?) else {
        bail!("the rows of the opening file are refused");
    };
    let call = change_password(alloc, BOB, "hunter2", "hunter3", 2)?;
    let reply = answer_alone(alloc, &mut identity, &call);
    ensure!(
        matches!(&reply, Reply::Ok(BodyOut::Nothing)),
        "the password is not changed"
    );
    let Ok(events) = identity.kept_events() else {
        bail!("no memory");
    };
    let ended = EventRow {
        what: Revoke::User(id(BOB)?),
        moment: READING,
    };
    ensure!(
        matches!(events.as_slice(), [event] if *event == ended),
        "what ended is not told"
    );
    Ok(())
}
