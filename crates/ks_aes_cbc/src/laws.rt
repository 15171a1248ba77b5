//! What holds of the definitions alone, for callers that have only these.
ghost use Rattle.std.specs.Prelude.{◌≡◌, ◌≢◌, ℕ, ◌+◌, ◌*◌, ◌/◌, ◌<◌, List, length, Some, None};
ghost use Rattle.ks_aes_cbc.specs.Aes.{AreBytes, IsBlock};
ghost use Rattle.ks_aes_cbc.specs.Cbc.{pad, cbc, uncbc};

/// `uncbc` finds exactly the bytes that were padded and sealed, under any key and initialization vector.
/// The call does nothing: its contract is the law.
pub fn uncbc_undoes_cbc()
    ensures found { (key iv p : List ℕ) → IsBlock key → IsBlock iv → AreBytes p
        → uncbc key iv (cbc key iv (pad p)) ≡ Some p }
    ensures some { (key iv sealed p : List ℕ) → uncbc key iv sealed ≡ Some p
        → AreBytes p × (cbc key iv (pad p) ≡ sealed) × (length p < length sealed) }
    ensures none { (key iv sealed p : List ℕ) → IsBlock key → IsBlock iv → uncbc key iv sealed ≡ None
        → AreBytes p → cbc key iv (pad p) ≢ sealed }
    ensures length { (key iv p : List ℕ) → IsBlock key → IsBlock iv → AreBytes p
        → length (cbc key iv (pad p)) ≡ 16 * (length p / 16 + 1) }
{}
