ghost use Rattle.std.specs.Prelude.{◌≡◌, ◌++◌, ℕ, List, Some, if◌then◌else◌};
ghost use Rattle.ks_machine.specs.Outcomes.{bytes_in};
ghost use Rattle.ks_outside.specs.Desks.{Makes};
ghost use Rattle.ks_server.specs.Ties.{IsDrawOf, Rises, fills_for, is_failed_draw};

use ks_base::Drawn;
use ks_outside::Desk;

/// Draws 64 random bytes, where a command draws, by one fill.
#[tactic(auto, using(ks_outside::proofs::CallLemmas::makes_none))]
pub fn draw<P: Desk>(draws: bool, desk: &mut P) -> Drawn
    ensures is { IsDrawOf draws result }
    ensures told { (bytes : List ℕ) → (P.desk desk.old).random ≡ Some bytes → (rest : List ℕ) × (bytes ≡ bytes_in result ++ rest) × ((P.desk desk.new).random ≡ Some rest) }
    ensures faults { Rises (if is_failed_draw result then 1 else 0) (P.desk desk.old).fill_faults (P.desk desk.new).fill_faults }
    ensures kept { P.desk desk.new ≡ record (P.desk desk.old) { random = (P.desk desk.new).random; fill_faults = (P.desk desk.new).fill_faults; calls = (P.desk desk.new).calls } }
    ensures calls { Makes (fills_for result) (P.desk desk.old).calls (P.desk desk.new).calls }
{
    if !draws {
        return Drawn::Unused;
    }
    let mut bytes = [0; 64];
    match desk.fill(&mut bytes) {
        Ok(()) => Drawn::Bytes(bytes),
        Err(_) => Drawn::Failed,
    }
}
