ghost use Rattle.std.specs.Prelude.{◌≡◌, true, false, Some, None, IfOk, IfSome, IfNone, IsUtf8};
ghost use Rattle.std.specs.List.{list_any, position, before_first, after_first};
ghost use Rattle.ks_rule.specs.Checks.{is_colon, is_foreign, kinded, check_of};
ghost use Rattle.ks_rule.specs.Reading.{Checked};

use crate::kind::quoted;
use crate::pieces::is_fillable;
use crate::rule::Rule;
use crate::stop::Stop;
use ks_base::{Memory, Text};
use std::alloc::Global;

/// A text, of bytes in UTF-8.
fn text(alloc: Global, bytes: &[u8]) -> Result<Text, Memory>
    requires { IsUtf8 bytes.now }
    ensures { IfOk result (λ made. made ≡ bytes.now) }
{
    match Text::read(alloc, bytes)? {
        Some(text) => Ok(text),
        None => unreachable!(),
    }
}

fn colon_in(check: &[u8]) -> Option<usize>
    ensures { result ≡ position is_colon check.now }
{
    check.iter().position(|byte| *byte == b':')
}

/// What stands before the first colon of a check, and behind it.
fn cut_kind(check: &[u8]) -> Option<(&[u8], &[u8])>
    requires { IsUtf8 check.now }
    ensures none { IfNone result (list_any is_colon check.now ≡ false) }
    ensures some { IfSome result (λ parts. list_any is_colon check.now ≡ true) }
    ensures kind { IfSome result (λ parts. (parts.0.now ≡ before_first is_colon check.now) × IsUtf8 parts.0.now) }
    ensures text { IfSome result (λ parts. (parts.1.now ≡ after_first is_colon check.now) × IsUtf8 parts.1.now) }
{
    let Some(colon) = colon_in(check) else {
        return None;
    };
    let (kind, behind) = check.split_at(colon);
    Some((kind, behind.split_at(1).1))
}

/// The tree of a check.
#[tactic(auto, unfolding(crate::specs::Checks::check_of))]
pub fn read_check(alloc: Global, check: &[u8]) -> Result<Rule, Stop>
    requires { IsUtf8 check.now }
    ensures { Checked (check_of check.now) result }
{
    if quoted(check).is_some() {
        return Err(Stop::Unreadable);
    }
    if let Some((kind, text)) = cut_kind(check) {
        return read_kinded(alloc, kind, text);
    }
    if check == b"@".as_slice() {
        Ok(Rule::Always)
    } else {
        Ok(Rule::Never)
    }
}

/// Whether a rule may have no check of this kind.
fn is_foreign(kind: &[u8]) -> bool
    ensures { result ≡ is_foreign kind.now }
{
    kind.is_empty() || kind == b"http".as_slice() || kind == b"https".as_slice()
}

#[tactic(auto, unfolding(crate::specs::Checks::kinded))]
fn read_kinded(alloc: Global, kind: &[u8], behind: &[u8]) -> Result<Rule, Stop>
    requires kind { IsUtf8 kind.now }
    requires text { IsUtf8 behind.now }
    ensures { Checked (kinded kind.now behind.now) result }
{
    if is_foreign(kind) {
        return Err(Stop::Unreadable);
    }
    if kind == b"rule".as_slice() {
        return Ok(Rule::Named(text(alloc, behind)?));
    }
    if !is_fillable(behind) {
        return Err(Stop::Unreadable);
    }
    if kind == b"role".as_slice() {
        return Ok(Rule::Role(text(alloc, behind)?));
    }
    Ok(Rule::Compare(text(alloc, kind)?, text(alloc, behind)?))
}
