//! What holds of the definitions of fronts, and of the lists of roles. Each law is the contract of a function that does
//! nothing.
ghost use Rattle.ks_machine.specs.FactLaws.{AllFactsSuffice, FewFactsSuffice, KeysOpenAlike};
ghost use Rattle.ks_machine.specs.TokenLaws.{AreRestrictedHeldBack, HasItsTrust, IsCredBound, IsRefusedEverAfter, IsTrustBound};
ghost use Rattle.ks_machine.specs.Laws.{AnswersAtCuts, AreComparable, AreOrderedByNumbers, AreSame, CutsComeBefore, CutsGoOn, EventsAreCutOff, EventsGoOn, EventsKeepSound, GoesOn, IsReflexive, IsTransitive, ReplaysEachChange, RolesAreEffective, RolesAreImplied};

/// That one front goes on from another is an order. Of two sound fronts from which one third goes on, and of which as many changes
/// are kept, one goes on from the other.
pub fn fronts_are_ordered()
    ensures reflexive { IsReflexive }
    ensures transitive { IsTransitive }
    ensures numbers { AreOrderedByNumbers }
    ensures comparable { AreComparable }
    ensures same { AreSame }
{}

/// The front after an event goes on from the one before, and no change of it is above its highest moment.
pub fn journals_go_on()
    ensures later { EventsGoOn }
    ensures sound { EventsKeepSound }
{}

/// A front that is cut at an event is the one before it at the event's moment, and gives the same reply.
pub fn cuts_are_fronts()
    ensures events { EventsAreCutOff }
    ensures after { CutsGoOn }
    ensures before { CutsComeBefore }
    ensures answers { AnswersAtCuts }
{}

/// The front after a call goes on from the one before it.
pub fn calls_go_on()
    ensures { GoesOn }
{}

/// The state of a front with one change more is that of the front, changed.
pub fn changes_are_replayed()
    ensures { ReplaysEachChange }
{}

/// The machine's list of a user's roles at a target is the ascending one of exactly the effective roles.
pub fn roles_are_effective()
    ensures { RolesAreEffective }
{}

/// The machine's closure of some roles is the ascending list of exactly those to which walks lead from them.
pub fn roles_are_implied()
    ensures { RolesAreImplied }
{}

/// What some true facts suffice for, the machine says with all of them; so no fact that is lacking changes an answer.
pub fn few_facts_suffice()
    ensures { FewFactsSuffice }
{}

/// With all facts the machine never asks for one: the plain machine's answer has no hole.
#[tactic(auto, using(crate::proofs::AllFacts::all_facts))]
pub fn all_facts_suffice()
    ensures { AllFactsSuffice }
{}

/// With all facts the keys of a ring find in a text exactly what the same keys find alone; so a call opens a token as a check
/// of it does.
#[tactic(auto, using(crate::proofs::OpenedLemmas::keys_open_alike))]
pub fn keys_open_alike()
    ensures { KeysOpenAlike }
{}

/// The roles of a valid token of a trust are among those that are effective for the trust's first trustor at the
/// trust's project.
pub fn trusts_are_bounded()
    ensures stands { HasItsTrust }
    ensures bounded { IsTrustBound }
{}

/// The credential of a valid token of an application credential stands, and the token's roles are among those that are effective
/// for its user on the credential's project, in the state that decides.
pub fn credentials_are_bounded()
    ensures { IsCredBound }
{}

/// In every state a token whose application credential is restricted makes no trust and no credential, and ends no credential.
pub fn restricted_tokens_are_held_back()
    ensures { AreRestrictedHeldBack }
{}

/// A token that a revocation ends in a front is refused in each front that goes on from it, with and without the
/// window for expired tokens; also where its user, project, domain or trust was deleted, and the id was drawn again.
pub fn revoked_tokens_stay_refused()
    ensures { IsRefusedEverAfter }
{}
