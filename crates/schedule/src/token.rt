// The tokens of a line.
ghost use Rattle.std.specs.Prelude.{◌≡◌, ℕ, ◌-◌, ◌<◌, ◌≤◌, length, drop, IfOk, OnSome, MatchOption};
ghost use Rattle.schedule.specs.Scans.{NoToken, FirstToken, TokenEnd};

use crate::expected::Expected;
use crate::number::decimal;
use crate::scan::{ends_token, find_gap, find_quote, find_start};

// The length of the token that a line starts with.
fn token_len(line: &[u8]) -> Result<usize, Expected>
    requires { 0 < length line.now }
    ensures bound { IfOk result (λ n. (0 < n) × (n ≤ length line.now)) }
    ensures end { IfOk result (TokenEnd line.now) }
{
    let [b'"', inner @ ..] = line else {
        return Ok(1 + find_gap(&line[1..]));
    };
    let close = find_quote(inner);
    if close == inner.len() {
        return Err(Expected::ClosingQuote);
    }
    match inner.get(close + 1) {
        Some(after) if !ends_token(*after) => Err(Expected::GapAfterQuote),
        _ => Ok(close + 2),
    }
}

// What is left of a line that is being cut into tokens.
#[derive(Drop)]
pub(crate) struct Tokens<'a> {
    rest: &'a str,
}

impl<'a> Tokens<'a> {
    pub(crate) fn of(line: &'a str) -> Tokens<'a> {
        Tokens { rest: line }
    }

    // The next token, or none where the line ends or a comment starts.
    pub(crate) fn next(&mut self) -> Result<Option<&'a str>, Expected>
        ensures same { self.new.rest.now ≡ drop (length self.old.rest.now - length self.new.rest.now) self.old.rest.now }
        ensures onward { IfOk result (λ t. OnSome t (length self.new.rest.now < length self.old.rest.now)) }
        ensures token { IfOk result (λ t. MatchOption t (NoToken self.old.rest.now) (λ x. FirstToken self.old.rest.now x.now self.new.rest.now)) }
    {
        let start = find_start(self.rest.as_bytes());
        let (_, line) = self.rest.split_at_checked(start).ok_or(Expected::Utf8)?;
        if line.is_empty() || line.starts_with('#') {
            return Ok(None);
        }
        let len = token_len(line.as_bytes())?;
        let (token, rest) = line.split_at_checked(len).ok_or(Expected::Utf8)?;
        self.rest = rest;
        Ok(Some(token))
    }
}

// The next token as a number up to a bound.
pub(crate) fn number(tokens: &mut Tokens<'_>, most: u32) -> Result<u32, Expected>
    ensures { IfOk result (λ n. n ≤ most) }
{
    tokens
        .next()?
        .and_then(|token| decimal(token, most))
        .ok_or(Expected::Number { most })
}

// The next token as a session: five bits.
pub(crate) fn session(tokens: &mut Tokens<'_>) -> Result<u8, Expected>
    ensures { IfOk result (λ n. n < 32) }
{
    Ok(number(tokens, 31)? as u8)
}

// Sixteen bits: a place, or a number of sessions or cells.
pub(crate) fn sixteen_bits(tokens: &mut Tokens<'_>) -> Result<u16, Expected> {
    Ok(number(tokens, 65535)? as u16)
}

// Refuses a further token.
pub(crate) fn end(tokens: &mut Tokens<'_>) -> Result<(), Expected> {
    match tokens.next()? {
        Some(_) => Err(Expected::EndOfLine),
        None => Ok(()),
    }
}
