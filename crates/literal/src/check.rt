// The verdict on a literal's text.
ghost use Rattle.std.specs.Prelude.{◌≡◌, [], ◌≤◌};
ghost use Rattle.literal.specs.Literal.{max_digits, max_power, mode_fits, verdict};
ghost use Rattle.literal.specs.Scan.{ends_mode};
ghost use Rattle.literal.specs.Requote.{requoted, left};
ghost use Rattle.literal.specs.Means.{NumberIs, PointIs, ExponentIs, ModeIs, ModeRoom, mode_means, num_means, StateRoom, WithinIs, FedIs, state_runs, verdict_means};

use crate::class::is_space;
use crate::mode::{Act, Bracket, Brackets, Mode, Num, Role, Str};
use crate::plain::past_plain;
use crate::requote::{Place, next_byte};
use crate::string::string_act;
use crate::value::{after_act, name_act, value_start};

// Why a text is no literal: it is not JSON, or it is over a limit.
#[derive(Clone, Copy)]
pub enum LiteralError {
    Invalid,
    OverLimit,
}

// Behind a digit of a number: an exponent, or what follows the number.
// Stays: the two counts, here and in the next two, are two numbers, as `Mode::InNumber` has them.
fn exponent_or(n: usize, e: usize, top: Option<Bracket>, c: u8) -> Act
    ensures { ExponentIs n e top c result }
{
    if matches!(c, b'e' | b'E') {
        return Act::Stay(Mode::InNumber(Num::Exponent, n, e));
    }
    after_act(top, c)
}

fn point_or(n: usize, e: usize, top: Option<Bracket>, c: u8) -> Act
    ensures { PointIs n e top c result }
{
    if c == b'.' {
        return Act::Stay(Mode::InNumber(Num::Point, n, e));
    }
    exponent_or(n, e, top, c)
}

#[tactic(auto, unfolding(crate::specs::Scan::number_step, crate::specs::Json::is_digit))]
fn number_act(p: Num, n: usize, e: usize, top: Option<Bracket>, c: u8) -> Act
    requires { (n ≤ max_digits) × (e ≤ max_power) }
    ensures { NumberIs (num_means p) n e top c result }
{
    let digit = c.is_ascii_digit();
    match p {
        Num::Minus if c == b'0' => Act::Stay(Mode::InNumber(Num::ZeroFirst, n + 1, e)),
        Num::Minus if digit => Act::Stay(Mode::InNumber(Num::Whole, n + 1, e)),
        Num::ZeroFirst => point_or(n, e, top, c),
        Num::Whole if digit => Act::Stay(Mode::InNumber(Num::Whole, n + 1, e)),
        Num::Whole => point_or(n, e, top, c),
        Num::Point if digit => Act::Stay(Mode::InNumber(Num::Fraction, n + 1, e)),
        Num::Fraction if digit => Act::Stay(Mode::InNumber(Num::Fraction, n + 1, e)),
        Num::Fraction => exponent_or(n, e, top, c),
        Num::Exponent if matches!(c, b'+' | b'-') => Act::Stay(Mode::InNumber(Num::Sign, n, e)),
        Num::Exponent if digit => Act::Stay(Mode::InNumber(Num::Power, n, e + 1)),
        Num::Sign if digit => Act::Stay(Mode::InNumber(Num::Power, n, e + 1)),
        Num::Power if digit => Act::Stay(Mode::InNumber(Num::Power, n, e + 1)),
        Num::Power => after_act(top, c),
        _ => Act::Invalid,
    }
}

// White space leaves the mode as it is where it is no part of a string, a number or a name.
#[tactic(auto, unfolding(crate::specs::Scan::step, crate::specs::Scan::key_step))]
fn mode_act(mode: Mode, top: Option<Bracket>, c: u8) -> Act
    requires { ModeRoom mode }
    ensures { ModeIs mode top c result }
{
    match mode {
        Mode::InString(role, p) => string_act(p, role, c),
        Mode::InNumber(p, n, e) => number_act(p, n, e, top, c),
        Mode::InName(i) => name_act(i, c),
        Mode::After => after_act(top, c),
        _ if is_space(c) => Act::Stay(mode),
        Mode::FirstItem if c == b']' => Act::Pop(Mode::After),
        Mode::FirstKey if c == b'}' => Act::Pop(Mode::After),
        Mode::Value | Mode::FirstItem => value_start(c),
        Mode::Key | Mode::FirstKey if c == b'"' => {
            Act::Stay(Mode::InString(Role::Key, Str::Between))
        }
        Mode::Colon if c == b':' => Act::Stay(Mode::Value),
        _ => Act::Invalid,
    }
}

// Where a text stands.
#[derive(Clone, Copy)]
struct State {
    brackets: Brackets,
    mode: Mode,
}

fn mode_fits(mode: Mode) -> bool
    ensures { result ≡ mode_fits (mode_means mode) }
{
    match mode {
        Mode::InNumber(_, n, e) => n <= Num::DIGITS && e <= Num::POWER,
        _ => true,
    }
}

// The state, if it passes no limit.
fn within(brackets: Brackets, mode: Mode) -> Result<State, LiteralError>
    ensures { WithinIs brackets mode result }
{
    if brackets.depth <= Brackets::DEPTH && mode_fits(mode) {
        return Ok(State { brackets, mode });
    }
    Err(LiteralError::OverLimit)
}

// One byte: on in a state, or the byte is at fault.
fn feed(state: State, c: u8) -> Result<State, LiteralError>
    requires { StateRoom state }
    ensures { FedIs state c result }
{
    let brackets = state.brackets;
    match mode_act(state.mode, brackets.top(), c) {
        Act::Stay(mode) => within(brackets, mode),
        Act::Push(bracket, mode) => within(brackets.push(bracket), mode),
        Act::Pop(mode) => within(brackets.pop(), mode),
        Act::Invalid => Err(LiteralError::Invalid),
    }
}

fn mode_ends(mode: Mode) -> bool
    ensures { result ≡ ends_mode (mode_means mode) }
{
    match mode {
        Mode::After => true,
        Mode::InNumber(p, _, _) => {
            matches!(p, Num::ZeroFirst | Num::Whole | Num::Fraction | Num::Power)
        }
        _ => false,
    }
}

// The end of the text.
fn finish(state: State) -> Result<(), LiteralError>
    ensures { verdict_means result ≡ state_runs state [] }
{
    if state.brackets.depth == 0 && mode_ends(state.mode) {
        return Ok(());
    }
    Err(LiteralError::Invalid)
}

// Judges the bytes of a text from a place on, rewritten or not. It stops at the first byte at fault.
// One loop for both, so that the compiler can put all of `feed` into it.
// Stays: `quoted`, since a loop for each takes 4.5 million instructions, not 2.4, for 60 KB of JSON.
fn judge(text: &[u8], first: Place, quoted: bool) -> Result<(), LiteralError>
    ensures { verdict_means result ≡ verdict (left quoted text.now first) }
{
    let mut state = State {
        brackets: Brackets::none(),
        mode: Mode::Value,
    };
    let mut place = first;
    while let Some((c, behind)) = next_byte(text, past_plain(text, state.mode, place), quoted) {
        state = feed(state, c)?;
        place = behind;
    }
    finish(state)
}

// The verdict on a literal's text.
pub fn check_literal(text: &[u8]) -> Result<(), LiteralError>
    ensures { verdict_means result ≡ verdict text.now }
{
    judge(text, Place::Inner(0), false)
}

// The verdict on the inner text of single quotes, as if it were rewritten.
pub fn check_quoted(inner: &[u8]) -> Result<(), LiteralError>
    ensures { verdict_means result ≡ verdict (requoted inner.now) }
{
    judge(inner, Place::Opening, true)
}
