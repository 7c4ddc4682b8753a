//! Rules, read from a text.
ghost use Rattle.std.specs.Prelude.{◌≡◌, ◌≤◌, IfSome};
ghost use Rattle.std.specs.Option.{option_map};
ghost use Rattle.victim_rules.specs.Texts.{behind, begins_with_zero, is_number};
ghost use Rattle.victim_rules.specs.Texts.{number_up_to, one_more, rule_of, rules_of};

use crate::rule::Rule;
use crate::ruled::{RULE_LIMIT, Ruled};
use mss_base::{are_digits, number_of, volume_at};

/// The most digits of a number.
const DIGIT_LIMIT: usize = 4;

/// The highest quota: as many pages as all volumes have.
const QUOTA_LIMIT: u16 = 1632;

/// The highest number of a volume.
const VOLUME_LIMIT: u16 = 31;

/// Why a text has no rules.
#[derive(Clone, Copy)]
pub enum RulesFault {
    /// Its first bad rule has this number, from 1; a ninth is bad.
    Bad { rule: u8 },
}

/// Whether it is more than one digit, of which the first is 0.
fn begins_with_zero(text: &[u8]) -> bool
    ensures { result ≡ begins_with_zero text.now }
{
    1 < text.len() && text[0] == b'0'
}

/// Whether a text is one to four digits without a leading zero.
fn is_number(text: &[u8]) -> bool
    ensures { result ≡ is_number text.now }
{
    1 <= text.len() && text.len() <= DIGIT_LIMIT && are_digits(text) && !begins_with_zero(text)
}

/// The number of a text, where it is spelled so and isn't above the most.
fn number_up_to(most: u16, text: &[u8]) -> Option<u16>
    ensures value { result ≡ number_up_to most text.now }
    ensures within { IfSome result (λ n. n ≤ most) }
{
    if !is_number(text) {
        return None;
    }
    let number = number_of(text) as u16;
    if number <= most { Some(number) } else { None }
}

/// What stands behind this front of a text, if it begins so.
fn behind<'t>(front: &[u8], text: &'t [u8]) -> Option<&'t [u8]>
    ensures { option_map (λ t. t.now) result ≡ behind front.now text.now }
{
    text.strip_prefix(front)
}

fn quota(digits: &[u8]) -> Option<Rule>
    ensures { result ≡ option_map (λ most. Rule.Quota most) (number_up_to 1632 digits.now) }
{
    match number_up_to(QUOTA_LIMIT, digits) {
        Some(most) => Some(Rule::Quota(most)),
        None => None,
    }
}

fn avoided(digits: &[u8]) -> Option<Rule>
    ensures { result ≡ option_map (λ volume. Rule.Avoid volume) (number_up_to 31 digits.now) }
{
    match number_up_to(VOLUME_LIMIT, digits) {
        Some(volume) => Some(Rule::Avoid(volume_at(volume as u8))),
        None => None,
    }
}

/// The rule of a text.
fn rule_of(text: &[u8]) -> Option<Rule>
    ensures { result ≡ rule_of text.now }
{
    if text == b"clean".as_slice() {
        return Some(Rule::Clean);
    }
    if let Some(digits) = behind(b"quota:", text) {
        return quota(digits);
    }
    match behind(b"avoid:", text) {
        Some(digits) => avoided(digits),
        None => None,
    }
}

/// The rules with that of a text behind them.
fn one_more(rules: Ruled, text: &[u8]) -> Result<Ruled, RulesFault>
    ensures { result ≡ one_more rules text.now }
{
    let count = rules.as_slice().len();
    let fault = RulesFault::Bad {
        rule: count as u8 + 1,
    };
    if count == RULE_LIMIT {
        return Err(fault);
    }
    let Some(rule) = rule_of(text) else {
        return Err(fault);
    };
    let mut more = rules;
    more.push(rule);
    Ok(more)
}

/// The rules of a text.
///
/// It is `lru`, which has none, or one to eight rules with commas between them: `clean`, `quota:Q` with Q of 0 to 1,632,
/// and `avoid:V` with V of 0 to 31. A number is one to four digits, without a leading zero. Any other text is `Bad`, with
/// the number of its first bad rule; the empty text has a bad rule 1.
pub fn read_rules(text: &str) -> Result<Ruled, RulesFault>
    ensures { result ≡ rules_of text.now }
{
    let mut rules = Ruled::none();
    if text == "lru" {
        return Ok(rules);
    }
    for rule in text.as_bytes().split(|byte| *byte == b',') {
        rules = one_more(rules, rule)?;
    }
    Ok(rules)
}
