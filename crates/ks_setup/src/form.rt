ghost use Rattle.std.specs.Prelude.{◌≡◌, ℕ, List, Ok, Err, IfErr};
ghost use Rattle.ks_setup.specs.Forms.{IsFormOf, ReadsForm, ReadsWhole};
ghost use Rattle.ks_setup.specs.Openings.{AnswersFolder};
ghost use Rattle.ks_written.specs.Written.{folder_wanted};

use crate::opening::OpeningFault;
use crate::policy::load_policy;
use ks_base::ShapeRefusal;
use ks_json::Scratch;
use ks_policy::{PolicyFault, Rules};
use ks_written::{Written, is_folder, read_file, read_written};
use std::alloc::Global;
use std::marker::Model;

/// An opening file whose form is right: what it says, and what its policy is.
#[derive(Drop)]
pub struct OpeningFile {
    pub(crate) written: Written,
    pub(crate) policy: Result<Rules, PolicyFault>,
}

impl Model for OpeningFile {
    ghost use Rattle.std.specs.Prelude.{◌≤◌};
    ghost use Rattle.std.specs.Coded.{codes};
    ghost use Rattle.ks_base.specs.declared.limits.TheConstants.{ROUNDS};
    ghost use Rattle.ks_rule.specs.TreeCodes.{tree_code};
    ghost use Rattle.ks_setup.specs.Forms.{Form};
    ghost use Rattle.ks_setup.specs.Steps.{AreFew};

    ghost Value = { Form };

    ghost coded = { Prim.hlevel (codes, tree_code) };

    ghost view = { λ file. record { written = file.written; policy = file.policy } };

    ghost invariant = { λ file. (1 ≤ file.written.settings.rounds) × (file.written.settings.rounds ≤ ROUNDS) × AreFew file.written.keys };
}

fn read_whole(alloc: Global, text: &[u8]) -> Result<OpeningFile, ShapeRefusal>
    ensures { ReadsWhole text.now result }
{
    let mut scratch = Scratch::new(alloc);
    let document = read_file(alloc, text, &mut scratch)?;
    let written = read_written(alloc, &document)?;
    let policy = load_policy(alloc, &document);
    Ok(OpeningFile { written, policy })
}

impl OpeningFile {
    /// Reads an opening file. Of its faults those of its form alone are told now: that its policy is refused is told once its keys
    /// are known, and its keys' texts and what its rows name are not looked at.
    pub fn read(alloc: Global, text: &[u8]) -> Result<OpeningFile, OpeningFault>
        ensures form { ReadsForm text.now result }
        ensures refused { IfErr result (λ fault. AnswersFolder text.now (Err fault)) }
    {
        Ok(read_whole(alloc, text)?)
    }

    /// Whether it takes its keys from the folder.
    pub fn wants_folder(&self) -> bool
        ensures { (text : List ℕ) → IsFormOf text self.now → folder_wanted text ≡ Ok result }
    {
        is_folder(&self.written.keys)
    }
}
