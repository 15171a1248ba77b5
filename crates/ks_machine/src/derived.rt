ghost use Rattle.std.specs.Prelude.{◌≡◌, ◌≤◌};
ghost use Rattle.ks_hmac.specs.Pbkdf2.{pbkdf2_of};
ghost use Rattle.ks_machine.specs.Derivations.{Derivation};

use ks_base::Text;
use ks_hmac::pbkdf2;
use std::marker::Model;

/// What was derived from a password, with what it was derived from: a fact, since there is no other way
/// to make one.
#[derive(Drop)]
pub struct Derived {
    password: Text,
    salt: [u8; 16],
    rounds: u32,
    digest: [u8; 32],
}

impl Model for Derived {
    ghost use Rattle.std.specs.Prelude.{◌≡◌};
    ghost use Rattle.ks_hmac.specs.Pbkdf2.{pbkdf2_of};
    ghost use Rattle.ks_machine.specs.Derivations.{Derivation};

    ghost Value = { Derivation };

    ghost view = { λ d. record { password = d.password; salt = d.salt; rounds = d.rounds; digest = d.digest } };

    ghost invariant = { λ d. d.digest ≡ pbkdf2_of d.password d.salt d.rounds };
}

impl Derived {
    /// Derives the digest of a password: PBKDF2 with HMAC-SHA-256 (RFC 8018, section 5.2). The time taken grows
    /// with `rounds`, the iteration count.
    pub fn of(password: Text, salt: [u8; 16], rounds: u32) -> Derived
        requires at_least_one { 1 ≤ rounds }
        requires limited { rounds ≤ 100_000 }
        ensures { result ≡ record { password = password; salt = salt; rounds = rounds; digest = pbkdf2_of password salt rounds } }
    {
        let digest = pbkdf2(password.as_slice(), &salt, rounds);
        Derived {
            password,
            salt,
            rounds,
            digest,
        }
    }

    /// The password.
    pub fn password(&self) -> &Text
        ensures { result.now ≡ self.now.password }
    {
        &self.password
    }

    /// The salt.
    pub fn salt(&self) -> &[u8; 16]
        ensures { result.now ≡ self.now.salt }
    {
        &self.salt
    }

    /// The iteration count.
    pub fn rounds(&self) -> u32
        ensures { result ≡ self.now.rounds }
    {
        self.rounds
    }

    /// The digest.
    pub fn digest(&self) -> &[u8; 32]
        ensures digest { result.now ≡ self.now.digest }
        ensures derived { self.now.digest ≡ pbkdf2_of self.now.password self.now.salt self.now.rounds }
    {
        &self.digest
    }
}
