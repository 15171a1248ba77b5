//! What the lists of ids say of the trusts that go with a change.
ghost use Rattle.std.specs.Prelude.{◌≡◌, Bool, List, filter};
ghost use Rattle.ks_base.specs.declared.trusts.TrustRow.{TrustRow};
ghost use Rattle.ks_base.specs.Rows.{Id};
ghost use Rattle.ks_base.specs.Tables.{id_cmp, Among, IsAscending};
ghost use Rattle.ks_base.specs.Trusts.{trusts_gone, trusts_left};
ghost use Rattle.ks_trust.specs.State.{ids_of, is_listed, without_trusts};

/// The ids of the trusts that pass a test name exactly these among those that stand.
#[tactic(auto, using(crate::proofs::IdLists::names_those))]
pub fn named_by_their_ids()
    ensures { (trusts : List TrustRow) (test : TrustRow → Bool) (trust : TrustRow) → IsAscending id_cmp (λ trust. trust.id) trusts → Among trusts trust → is_listed (ids_of (filter test trusts)) trust ≡ test trust }
{}

/// The trusts that go with those whose ids are listed are the ones that go with the trusts that are touched, where
/// the list names these and no others.
pub fn gone_by_their_ids()
    ensures { (trusts : List TrustRow) (touched : TrustRow → Bool) (ids : List Id) → ((trust : TrustRow) → Among trusts trust → is_listed ids trust ≡ touched trust) → trusts_gone trusts (is_listed ids) ≡ trusts_gone trusts touched }
{}

/// What is left without the ids of the trusts that go are the trusts that stay.
pub fn left_without_their_ids()
    ensures { (trusts : List TrustRow) (touched : TrustRow → Bool) → IsAscending id_cmp (λ trust. trust.id) trusts → without_trusts (ids_of (trusts_gone trusts touched)) trusts ≡ trusts_left trusts touched }
{}
