//! Whom a call admits: the caller and the token that it is about must be valid, and a rule must allow the action.
ghost use Rattle.std.specs.Prelude.{◌≡◌, ◌≤◌, IfOk, IfSome, option_map};
ghost use Rattle.std.specs.Option.{option_copied};
ghost use Rattle.ks_auth.specs.Answers.{Tells, rows_told};
ghost use Rattle.ks_auth.specs.Facts.{told};
ghost use Rattle.ks_machine.specs.Admission.{admitted, allows, subject_asked};
ghost use Rattle.ks_machine.specs.States.{State};
ghost use Rattle.ks_checks.specs.Plans.{Gives, Passes, valid_of};
ghost use Rattle.ks_plan.specs.Parties.{AreUsable, parties_of};
ghost use Rattle.ks_targets.specs.Views.{requirements_of};
ghost use Rattle.ks_checks.specs.Tokens.{IsUsable};

use ks_auth::{Facts, Tables};
use ks_base::{Boxed, Text};
use ks_checks::tokens::{caller_of, subject_of};
use ks_checks::{Caller, Halt};
use ks_machine::{Call, Cause, Command};
use ks_policy::Rules;
use ks_targets::Requirements;
use ks_targets::credentials::credentials;
use ks_targets::targets::target_of;
use std::alloc::Global;

/// The caller and the token that a call is about, each where the command asks for one. They stand behind pointers, since most
/// calls are about no token, and some have no caller.
pub struct Parties {
    pub caller: Option<Boxed<Caller>>,
    pub subject: Option<Boxed<Caller>>,
}

impl Drop for Parties {
    fn drop(self) {
        let Parties {
            caller: _,
            subject: _,
        } = self;
    }
}

/// Goes on where the rule of this action allows it.
fn allows(
    alloc: Global,
    tables: &Tables,
    rules: &Rules,
    caller: &Caller,
    subject: Option<&Caller>,
    command: &Command,
    action: &'static str,
) -> Result<(), Halt>
    ensures { Passes result (allows rules.now (rows_told tables.now) (valid_of caller.now) (option_map valid_of (option_copied subject.entry)) command.now action.entry.now) }
{
    let action = Text::of(alloc, action)?;
    let seen = credentials(alloc, tables, caller)?;
    let target = target_of(alloc, tables, subject, command)?;
    if rules.decide(&action, &seen, &target)? {
        Ok(())
    } else {
        Err(Halt::Refused(Cause::Rule(action)))
    }
}

/// The token that the call is about, where the command asks for one.
fn subject_asked(
    alloc: Global,
    tables: &Tables,
    moment: u64,
    late: bool,
    given: &Option<Text>,
    about: bool,
    facts: &Facts,
) -> Result<Option<Caller>, Halt>
    requires moment { tables.now.revoked.now.high ≤ moment }
    requires life { tables.now.revoked.now.life ≡ tables.now.settings.now.life }
    ensures subject { (S : State) → Tells tables.now S → Gives (option_map valid_of) result (subject_asked (told facts.now) S moment late given.now about) }
    ensures usable { IfOk result (λ subject. IfSome subject (λ token. IsUsable tables.now.people.now.users token.payload)) }
{
    if about {
        Ok(Some(subject_of(alloc, tables, moment, late, given, facts)?))
    } else {
        Ok(None)
    }
}

/// Whom the call admits.
#[tactic(auto, unfolding(ks_machine::specs::Admission::admitted))]
pub fn admitted(
    alloc: Global,
    tables: &Tables,
    rules: &Rules,
    moment: u64,
    call: &Call,
    asked: &Requirements,
    facts: &Facts,
) -> Result<Parties, Halt>
    requires moment { tables.now.revoked.now.high ≤ moment }
    requires life { tables.now.revoked.now.life ≡ tables.now.settings.now.life }
    ensures parties { (S : State) → Tells tables.now S → Gives parties_of result (admitted (told facts.now) S rules.now (rows_told tables.now) moment call.now (requirements_of asked.now).action (requirements_of asked.now).subject (requirements_of asked.now).late) }
    ensures usable { IfOk result (λ who. AreUsable tables.now.people.now.users who) }
{
    let Some(action) = asked.action else {
        return Ok(Parties {
            caller: None,
            subject: None,
        });
    };
    let command = &call.command;
    let caller = caller_of(alloc, tables, moment, &call.caller, facts)?;
    let subject = subject_asked(
        alloc,
        tables,
        moment,
        asked.late,
        &call.subject,
        asked.subject,
        facts,
    )?;
    allows(
        alloc,
        tables,
        rules,
        &caller,
        subject.as_ref(),
        command,
        action,
    )?;
    Ok(Parties {
        caller: Some(Boxed::new(alloc, caller)?),
        subject: match subject {
            Some(subject) => Some(Boxed::new(alloc, subject)?),
            None => None,
        },
    })
}
