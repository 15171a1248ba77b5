ghost use Rattle.std.specs.Prelude.{◌≡◌, List, [], ◌∷◌, MatchOption, MatchBool, IfSome, IsTrue, ◌↔◌, IsUtf8};
ghost use Rattle.ks_rule.specs.Tokens.{Token as Seen, tokens};
ghost use Rattle.ks_rule.specs.Seen.{seen, seen_end, IsText};
ghost use Rattle.ks_rule.specs.Grammar.{IsNotRule, IsAndRule, IsOrRule};
ghost use Rattle.ks_rule.specs.Reading.{Anything, NoAnd, NoOperator, Below, Closed, Negated, Reads, ReadsWhole};

use crate::check::read_check;
use crate::rule::Rule;
use crate::stop::Stop;
use crate::tokens::{End, Token, Tokens};
use ks_base::limits::RULE_DEPTH;
use std::alloc::Global;
use std::marker::Model;

/// Reads a rule from the front of a text's tokens.
#[derive(Drop)]
struct Reader<'a> {
    alloc: Global,
    next: Option<Token<'a>>,
    behind: Tokens<'a>,
}

impl<'a> Model for Reader<'a> {
    ghost use Rattle.std.specs.Prelude.{List, IfSome};
    ghost use Rattle.ks_rule.specs.Tokens.{Token as Seen};
    ghost use Rattle.ks_rule.specs.Seen.{IsText, ahead};

    ghost Value = { List Seen };

    ghost view = { λ r. ahead r.next r.behind };

    ghost invariant = { λ r. IfSome r.next IsText };
}

impl<'a> Reader<'a> {
    fn of(alloc: Global, text: &'a [u8]) -> Reader<'a>
        requires { IsUtf8 text.now }
        ensures { result ≡ tokens text.now }
    {
        let mut behind = Tokens::of(text);
        let next = behind.next_token();
        Reader {
            alloc,
            next,
            behind,
        }
    }

    fn take(&mut self) -> Option<Token<'a>>
        ensures next { MatchOption result (self.old ≡ []) (λ token. self.old ≡ seen token ∷ self.new) }
        ensures text { IfSome result IsText }
    {
        let taken = self.next;
        self.next = self.behind.next_token();
        taken
    }

    fn is_next(&self, wanted: End) -> bool
        ensures { IsTrue result ↔ ((rest : List Seen) × (self.now ≡ seen_end wanted ∷ rest)) }
    {
        match self.next {
            Some(Token::End(end)) => end == wanted,
            _ => false,
        }
    }

    /// Takes the next token where it is this one.
    fn take_end(&mut self, wanted: End) -> bool
        ensures { MatchBool result (self.old ≡ seen_end wanted ∷ self.new)
            ((self.new ≡ self.old) × ((rest : List Seen) → self.old ≡ seen_end wanted ∷ rest → ⊥)) }
    {
        let is_next = self.is_next(wanted);
        if is_next {
            let _end = self.take();
        }
        is_next
    }

    /// An or-rule, in which at most `depth` of `not` and parentheses are open at one place.
    #[cycle(reader)]
    fn or_rule(&mut self, depth: u8) -> Result<Rule, Stop>
        ensures { Reads (IsOrRule depth) NoOperator self.old result self.new }
    {
        let mut rule = self.and_rule(depth)?;
        'parts: while self.take_end(End::Or) {
            let right = self.and_rule(depth)?;
            rule = Rule::Or(Box::new(self.alloc, rule)?, Box::new(self.alloc, right)?);
        }
        Ok(rule)
    }

    #[cycle(reader)]
    fn and_rule(&mut self, depth: u8) -> Result<Rule, Stop>
        ensures { Reads (IsAndRule depth) NoAnd self.old result self.new }
    {
        let mut rule = self.not_rule(depth)?;
        'parts: while self.take_end(End::And) {
            let right = self.not_rule(depth)?;
            rule = Rule::And(Box::new(self.alloc, rule)?, Box::new(self.alloc, right)?);
        }
        Ok(rule)
    }

    #[cycle(reader)]
    fn not_rule(&mut self, depth: u8) -> Result<Rule, Stop>
        ensures { Reads (IsNotRule depth) Anything self.old result self.new }
    {
        let Some(token) = self.take() else {
            return Err(Stop::Unreadable);
        };
        match token {
            Token::Check(text) => read_check(self.alloc, text),
            Token::Not => self.negation(depth),
            Token::Open => self.group(depth),
            Token::End(_) => Err(Stop::Unreadable),
        }
    }

    /// What is negated, from behind the `not`.
    #[cycle(reader)]
    fn negation(&mut self, depth: u8) -> Result<Rule, Stop>
        ensures { Reads (Below (λ d. Negated (IsNotRule d)) depth) Anything self.old result self.new }
    {
        if depth == 0 {
            return Err(Stop::Unreadable);
        }
        let rule = self.not_rule(depth - 1)?;
        Ok(Rule::Not(Box::new(self.alloc, rule)?))
    }

    /// What stands in parentheses, from behind the first of them.
    #[cycle(reader)]
    fn group(&mut self, depth: u8) -> Result<Rule, Stop>
        ensures { Reads (Below (λ d. Closed (IsOrRule d)) depth) Anything self.old result self.new }
    {
        if depth == 0 {
            return Err(Stop::Unreadable);
        }
        let rule = self.or_rule(depth - 1)?;
        if !self.take_end(End::Close) {
            return Err(Stop::Unreadable);
        }
        Ok(rule)
    }

    fn is_at_end(&self) -> bool
        ensures { IsTrue result ↔ (self.now ≡ []) }
    {
        self.next.is_none()
    }
}

/// The or-rule that a text is.
pub fn read_rule(alloc: Global, text: &[u8]) -> Result<Rule, Stop>
    requires { IsUtf8 text.now }
    ensures { ReadsWhole (IsOrRule 64) (tokens text.now) result }
{
    let mut reader = Reader::of(alloc, text);
    let rule = reader.or_rule(RULE_DEPTH)?;
    if !reader.is_at_end() {
        return Err(Stop::Unreadable);
    }
    Ok(rule)
}
