ghost use Rattle.std.specs.Prelude.{◌≡◌, ◌++◌, ℕ, List, codes, OnOk, OnErr};
ghost use Rattle.hex.specs.Hex.{encode_lower};
ghost use Rattle.ks_machine.specs.Names.{name_of};
ghost use Rattle.ks_commands.specs.Check.{answer_line, answer_of};

use ks_base::Memory;
use ks_base::limits::DEFAULT_LIFE;
use ks_fernet::OpeningKey;
use ks_machine::{ReadToken, Why, first_answer, token_lines};
use std::alloc::{AllocError, Global};
use std::slice;

/// Puts the line that answers a token behind the answers, which are as they were where memory ends.
pub fn answer(
    alloc: Global,
    key: &OpeningKey,
    moment: u64,
    token: &[u8],
    answers: &mut Vec<u8>,
) -> Result<(), Memory>
    ensures ok { OnOk result (answers.new.items ≡ answers.old.items ++ answer_of key.now moment token.now) }
    ensures err { OnErr result (answers.new.items ≡ answers.old.items) }
{
    let said = first_answer(alloc, slice::from_ref(key), token)?;
    push_line(
        alloc,
        answers,
        &token_lines(DEFAULT_LIFE, moment, false, said),
    )
}

fn push_line(
    alloc: Global,
    answers: &mut Vec<u8>,
    said: &Result<ReadToken, Why>,
) -> Result<(), Memory>
    ensures ok { OnOk result (answers.new.items ≡ answers.old.items ++ answer_line said.now) }
    ensures err { OnErr result (answers.new.items ≡ answers.old.items) }
{
    let start = answers.len();
    let pushed = match said {
        Ok(held) => push_valid(alloc, answers, held.plain.as_slice()),
        Err(why) => push_refused(answers, *why),
    };
    if pushed.is_err() {
        answers.truncate(start);
        return Err(Memory);
    }
    Ok(())
}

fn push_valid(alloc: Global, answers: &mut Vec<u8>, plain: &[u8]) -> Result<(), AllocError>
    ensures ok { OnOk result (answers.new.items ≡ answers.old.items ++ (codes "valid " ++ (encode_lower plain.now ++ codes "\n"))) }
    ensures front { (rest : List ℕ) × (answers.new.items ≡ answers.old.items ++ rest) }
{
    let digits = hex::encode(alloc, plain)?;
    answers.extend_from_slice(b"valid ")?;
    answers.extend_from_slice(digits.as_bytes())?;
    answers.extend_from_slice(b"\n")
}

fn push_refused(answers: &mut Vec<u8>, why: Why) -> Result<(), AllocError>
    ensures ok { OnOk result (answers.new.items ≡ answers.old.items ++ (codes "refused " ++ (name_of why ++ codes "\n"))) }
    ensures front { (rest : List ℕ) × (answers.new.items ≡ answers.old.items ++ rest) }
{
    answers.extend_from_slice(b"refused ")?;
    answers.extend_from_slice(why.name().as_bytes())?;
    answers.extend_from_slice(b"\n")
}
