//! Laws of lawful fronts: what holds of every state that calls can reach, whatever they ask. Each law is the contract of
//! a function that does nothing.
#![tactic(auto)]

ghost use Rattle.ks_laws.specs.Laws.{AnswersAreReplies, ChangesKeepOrderly, CountedAreLast, CountsChanges, EarlierIsLawful, KeptSaltsAreWhole, LacksAreInRange, LacksAreUnknown, LawfulGoesOn, LawfulIsOrderly, LawfulIsSound, MomentsKeepLawful, OpenedIsOrderly, OpeningIsLawful, ProjectsAreClimbed, RepliesAreTellable, StepsFit, TimeKeepsOrderly, TrustsLead};

/// An accepted opening opens an orderly state. What a step of one tells can be told, and the change that it makes fits and
/// leaves an orderly state, with whatever facts the step was taken.
pub fn states_stay_orderly()
    ensures opened { OpenedIsOrderly }
    ensures steps { StepsFit }
    ensures changes { ChangesKeepOrderly }
    ensures time { TimeKeepsOrderly }
{}

/// Whatever is known, what a step of an orderly state lacks for a fit call can be found out: it names keys that are held, or
/// rounds in range with the salt that a standing user or application credential keeps or the one that was drawn. It is a fact of
/// a token, a password or a secret of the call, and is not known. With all facts none is lacking, so that an answer is always a
/// step's reply.
pub fn steps_lack_what_can_be_found()
    ensures ranges { LacksAreInRange }
    ensures salts { KeptSaltsAreWhole }
    ensures unknown { LacksAreUnknown }
    ensures answers { AnswersAreReplies }
{}

/// An accepted opening opens a lawful front, and the front after a call, or at a later moment, is as lawful as the one
/// before it. A lawful front that keeps no more changes than it has is sound, and what is sound before a lawful front is
/// lawful.
pub fn lawful_fronts_go_on()
    ensures opened { OpeningIsLawful }
    ensures later { LawfulGoesOn }
    ensures moments { MomentsKeepLawful }
    ensures sound { LawfulIsSound }
    ensures earlier { EarlierIsLawful }
{}

/// Rows of a lawful front's state have their ranges and stand in their order, and what they name stands; each change is
/// counted. A trust that counts its uses is nowhere passed on.
pub fn lawful_states_are_orderly()
    ensures orderly { LawfulIsOrderly }
    ensures counted { CountsChanges }
    ensures uses { CountedAreLast }
{}

/// Each moment in a reply has a text.
pub fn replies_can_be_told()
    ensures { RepliesAreTellable }
{}

/// What is computed of the projects above one, and of the first trustor of a trust, is what the relations say.
pub fn walks_are_relations()
    ensures projects { ProjectsAreClimbed }
    ensures trusts { TrustsLead }
{}
