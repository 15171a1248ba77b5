ghost use Rattle.std.specs.Prelude.{◌≡◌, ◌≤◌, ℕ, List, Some, IsErrOf, IfOk, IfErr, length};
ghost use Rattle.ks_outside.specs.Streams.{OnlyReads, OnlyWrites};
ghost use Rattle.ks_commands.specs.declared.checker.TheConstants.{PIECE};
ghost use Rattle.ks_commands.specs.Ending.{EndsCheck, IsStreamFault};

use crate::checker::{Checker, PIECE};
use crate::fault::Fault;
use ks_outside::{Sink, Source};
use std::alloc::{AllocError, Global};

/// Checks the tokens of an input: reads the key of line 1 and answers each later line on the output.
/// Lines before a bad line are answered, and so are those before a fault of the input.
pub fn check<S: Source, K: Sink>(alloc: Global, input: &mut S, output: &mut K) -> Result<(), Fault>
    ensures told { (text before : List ℕ) → (S.stream input.old).left ≡ Some text → (K.stream output.old).written ≡ Some before → EndsCheck text before (S.stream input.new).left (K.stream output.new).written result }
    ensures causes { IfErr result IsStreamFault }
    ensures reads { OnlyReads (IsErrOf result Fault.Read) (S.stream input.old) (S.stream input.new) }
    ensures writes { OnlyWrites (IsErrOf result Fault.Write) (K.stream output.old) (K.stream output.new) }
{
    let Ok(mut piece) = room(alloc) else {
        return Err(Fault::Memory);
    };
    let Ok(mut checker) = Checker::new(alloc) else {
        return Err(Fault::Memory);
    };
    checker.check(alloc, input, output, piece.as_mut_slice())
}

/// Room for a piece of the input.
fn room(alloc: Global) -> Result<Vec<u8>, AllocError>
    ensures { IfOk result (λ piece. length piece.items ≡ PIECE) }
{
    vec![in alloc; 0u8; PIECE]
}
