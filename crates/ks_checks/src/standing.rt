//! Whether rows without an id of their own stand.
ghost use Rattle.std.specs.Prelude.{◌≡◌, None, is_some};
ghost use Rattle.ks_base.specs.People.{member_of};
ghost use Rattle.ks_base.specs.PeopleFaults.{join_group_fault};
ghost use Rattle.ks_base.specs.RoleFaults.{imply_fault};
ghost use Rattle.ks_base.specs.RoleLists.{is_implication};

use ks_base::{ImplyRow, MemberRow};
use ks_people::People;
use ks_roles::Roles;

/// Whether the user, who may join the group, is in it already.
pub fn is_joined(people: &People, member: &MemberRow) -> bool
    requires { join_group_fault people.now member.now ≡ None }
    ensures { result ≡ is_some (member_of member.now people.now.members) }
{
    people.may_leave(member).is_ok()
}

/// Whether the implication, which may be made, stands already.
pub fn is_implication(roles: &Roles, inference: &ImplyRow) -> bool
    requires { imply_fault roles.now inference.now ≡ None }
    ensures { result ≡ is_implication inference.now roles.now.implications }
{
    roles.may_unimply(inference).is_ok()
}
