//! What each command asks for before its own checks.
ghost use Rattle.std.specs.Prelude.{◌≡◌, true};
ghost use Rattle.ks_machine.specs.Actions.{draws_for, open_to_all, requirements};
ghost use Rattle.ks_targets.specs.Views.{asks_for, requirements_of};

use crate::actions::{
    creation_action, deletion_action, get_action, grant_action, grant_check_action, grants_action,
    listing_action, revocation_action, update_action,
};
use crate::targets::kind_of;
use ks_machine::{Command, Made, RowKind, user_lacking};

/// What a command asks for before its own checks.
#[derive(Clone, Copy)]
pub struct Requirements {
    /// The action that a rule must allow.
    pub action: Option<&'static str>,
    /// Random bytes.
    pub draws: bool,
    /// The keys of the folder.
    pub loads: bool,
    /// A token that it is about.
    pub subject: bool,
    /// Whether this token may have expired.
    pub late: bool,
    /// A field of its query that it lacks.
    pub lacks: Option<&'static str>,
}

impl Requirements {
    /// A rule alone.
    fn rule(action: &'static str) -> Requirements
        ensures { requirements_of result ≡ asks_for action.entry.now }
    {
        Requirements {
            action: Some(action),
            ..Requirements::open(false)
        }
    }

    /// No rule.
    fn open(draws: bool) -> Requirements
        ensures { requirements_of result ≡ open_to_all draws }
    {
        Requirements {
            action: None,
            draws,
            loads: false,
            subject: false,
            late: false,
            lacks: None,
        }
    }

    /// A rule and random bytes, where they are drawn.
    fn drawing(action: &'static str, draws: bool) -> Requirements
        ensures { requirements_of result ≡ record (asks_for action.entry.now) { draws = draws } }
    {
        Requirements {
            draws,
            ..Requirements::rule(action)
        }
    }

    /// A rule and a token that it is about; `late` says whether that may have expired.
    fn about(action: &'static str, late: bool) -> Requirements
        ensures { requirements_of result ≡ record (asks_for action.entry.now) { subject = true; late = late } }
    {
        Requirements {
            subject: true,
            late,
            ..Requirements::rule(action)
        }
    }
}

/// Whether a change of this kind of row draws: that of a user does, also without a password.
fn draws_for(made: &Made) -> bool
    ensures { result ≡ draws_for made.now }
{
    match made {
        Made::User { .. } => true,
        Made::Domain { .. } | Made::Project { .. } | Made::Group { .. } | Made::Role { .. } =>
            false,
    }
}

/// What the command asks for. It takes no memory.
#[tactic(auto, unfolding(ks_machine::specs::Actions::requirements))]
pub fn required(command: &Command) -> Requirements
    ensures { requirements_of result ≡ requirements command.now }
{
    match command {
        Command::Version | Command::Versions => Requirements::open(false),
        Command::Login(_) | Command::ChangePassword(_, _, _) => Requirements::open(true),
        Command::Validate(late) => Requirements::about("identity:validate_token", *late),
        Command::Check(late) => Requirements::about("identity:check_token", *late),
        Command::RevokeToken => Requirements::about("identity:revoke_token", false),
        Command::Create(made) => Requirements::drawing(creation_action(kind_of(made.get())), true),
        Command::List(kind, _) => Requirements::rule(listing_action(*kind)),
        Command::Get(kind, _) => Requirements::rule(get_action(*kind)),
        Command::Update(_, made) => {
            let made = made.get();
            Requirements::drawing(update_action(kind_of(made)), draws_for(made))
        },
        Command::Delete(kind, _) => Requirements::rule(deletion_action(*kind)),
        Command::GroupsOf(_) => Requirements::rule("identity:list_groups_for_user"),
        Command::ProjectsOf(_) => Requirements::rule("identity:list_user_projects"),
        Command::MembersOf(_) => Requirements::rule("identity:list_users_in_group"),
        Command::Join(_) => Requirements::rule("identity:add_user_to_group"),
        Command::IsIn(_) => Requirements::rule("identity:check_user_in_group"),
        Command::Leave(_) => Requirements::rule("identity:remove_user_from_group"),
        Command::Implied(_) => Requirements::rule("identity:list_implied_roles"),
        Command::Imply(_) => Requirements::rule("identity:create_implied_role"),
        Command::Implication(_) => Requirements::rule("identity:get_implied_role"),
        Command::IsImplied(_) => Requirements::rule("identity:check_implied_role"),
        Command::Unimply(_) => Requirements::rule("identity:delete_implied_role"),
        Command::GrantsOf(who, at, _) => Requirements::rule(grants_action(who, at)),
        Command::Grant(row) => Requirements::rule(grant_action(&row.actor, &row.target)),
        Command::IsGranted(row) => Requirements::rule(grant_check_action(&row.actor, &row.target)),
        Command::Ungrant(row) => Requirements::rule(revocation_action(&row.actor, &row.target)),
        Command::Assignments(filter) => Requirements {
            lacks: user_lacking(&filter.fields),
            ..Requirements::rule("identity:list_role_assignments")
        },
        Command::CreateTrust(_) => Requirements::drawing("identity:create_trust", true),
        Command::Trusts(_) => Requirements::rule("identity:list_trusts"),
        Command::Trust(_) => Requirements::rule("identity:get_trust"),
        Command::DeleteTrust(_) => Requirements::rule("identity:delete_trust"),
        Command::TrustRoles(_) => Requirements::rule("identity:list_roles_for_trust"),
        Command::Events => Requirements::rule("identity:list_revoke_events"),
        Command::RotateKeys => Requirements::drawing("identity:rotate_keys", true),
        Command::LoadKeys => Requirements {
            loads: true,
            ..Requirements::rule("identity:load_keys")
        },
        Command::CreateCatalog(asked) => Requirements::drawing(
            creation_action(RowKind::of_catalog(asked.get().of)),
            true,
        ),
        Command::ListCatalog(of, _) => Requirements::rule(listing_action(RowKind::of_catalog(*of))),
        Command::GetCatalog(of, _) => Requirements::rule(get_action(RowKind::of_catalog(*of))),
        Command::UpdateCatalog(_, asked) => {
            let kind = RowKind::of_catalog(asked.get().of);
            Requirements::rule(update_action(kind))
        }
        Command::DeleteCatalog(of, _) => {
            let kind = RowKind::of_catalog(*of);
            Requirements::rule(deletion_action(kind))
        }
        Command::ShowCatalog => Requirements::open(false),
        Command::CreateAppCred(_, _) => {
            Requirements::drawing("identity:create_application_credential", true)
        }
        Command::ListAppCreds(_) => Requirements::rule("identity:list_application_credentials"),
        Command::GetAppCred(_, _) => Requirements::rule("identity:get_application_credential"),
        Command::DeleteAppCred(_, _) => {
            Requirements::rule("identity:delete_application_credential")
        }
        Command::CreateSecret(_) => Requirements::drawing("identity:create_credential", true),
        Command::ListSecrets => Requirements::rule("identity:list_credentials"),
        Command::GetSecret(_) => Requirements::rule("identity:get_credential"),
        Command::DeleteSecret(_) => Requirements::rule("identity:delete_credential"),
    }
}
