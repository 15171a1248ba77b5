//! When a token is valid, said by relations alone, and that one which was ended stays refused. Each law is the contract of a
//! function that does nothing.
#![tactic(auto)]

ghost use Rattle.ks_tokens.specs.Laws.{EndedTokensAreNotFound, EndedTokensStayRefused, TokensValidateExactly};

/// A token that is asked about is told, with its roles, exactly where the caller's text and its own are valid tokens and the
/// policy allows it: where a held key opens each of them, it is in time, no event of the whole history matches it, and its
/// user, scope, trust, application credential and roles hold.
pub fn tokens_validate_exactly()
    ensures { TokensValidateExactly }
{}

/// A token that a call ended is valid after no front that goes on from the one behind that call: it is refused to everybody
/// who has seen the call's change, as a caller's and as a subject's.
pub fn ended_tokens_stay_refused()
    ensures { EndedTokensStayRefused }
{}

/// A call that asks about a token which a call ended, at a front that goes on from the one behind that call, is not told of it;
/// where its caller's own token is valid, the answer is the refusal of the subject's, a 404.
pub fn ended_tokens_are_not_found()
    ensures { EndedTokensAreNotFound }
{}
