//! Event lines that are read by their first four bytes at once.
ghost use Rattle.std.specs.Prelude.{◌≡◌, ◌<◌, ◌≤◌, ℕ, List, ◌++◌, ◌∷◌, codes, decimal, drop, IfSome};
ghost use Rattle.std.specs.Int.{w32, to_le_bytes};
ghost use Rattle.lp_text.specs.Traces.{AreNames, IsTask};
ghost use Rattle.lp_text.specs.Words.{fork_word};
ghost use Rattle.lp_text.specs.inside.QuickLines.{BeginsWith};

use crate::split::cut;
use crate::symbol_cache::SymbolCache;
use lp_definitions::Event;
use lp_model::ForkKind;
use lp_numbers::NUMBERS;
use lp_stack::TaskId;
use lp_symbols::Symbols;

/// The bytes `call` as a number, the first one lowest; likewise the others.
const CALL: u32 = 0x6c6c_6163;

const RET: u32 = 0x2074_6572;

const SLEE: u32 = 0x6565_6c73;

const WAKE: u32 = 0x656b_6177;

const ENTE: u32 = 0x6574_6e65;

const EXIT: u32 = 0x7469_7865;

const WALK: u32 = 0x6b6c_6177;

const STOP: u32 = 0x706f_7473;

const ENAB: u32 = 0x6261_6e65;

const DISA: u32 = 0x6173_6964;

const REVE: u32 = 0x6576_6572;

const DIE: u32 = 0x2065_6964;

const IDLE: u32 = 0x656c_6469;

const FORK: u32 = 0x6b72_6f66;

/// The event of the line that a text begins with, and what stands after the line. None says nothing of
/// the text, whose line is then read word by word.
#[inline(always)]
pub(crate) fn quick_event<'a>(
    symbols: &Symbols,
    cache: &SymbolCache,
    text: &'a [u8],
) -> Option<(Event, &'a [u8])>
    requires names { AreNames symbols.now }
    ensures { IfSome result (λ x. BeginsWith symbols.now text.now x.0 x.1.now) }
{
    let (word, rest) = first_four(text)?;
    match word {
        RET => ret_rest(rest),
        CALL => call_rest(symbols, cache, rest),
        ENTE => enter_rest(rest),
        EXIT => exit_rest(rest),
        SLEE => sleep_rest(rest),
        WAKE => wake_rest(rest),
        WALK => walk_rest(rest),
        _ => rarer_event(word, rest),
    }
}

/// The same where the first four bytes aren't those of the commonest lines. Out of line, so that these have all the room that
/// the compiler leaves for what it joins.
#[inline(never)]
fn rarer_event(word: u32, rest: &[u8]) -> Option<(Event, &[u8])>
    ensures { (symbols : List (List ℕ)) → IfSome result (λ x. BeginsWith symbols (to_le_bytes w32 word ++ rest.now) x.0 x.1.now) }
{
    match word {
        STOP => stop_rest(rest),
        ENAB => enable_rest(rest),
        DISA => disable_rest(rest),
        REVE => reverse_rest(rest),
        DIE => die_rest(rest),
        IDLE => idle_rest(rest),
        FORK => fork_rest(rest),
        _ => None,
    }
}

/// The rest of a line after `ret` and a space.
#[inline(always)]
fn ret_rest(text: &[u8]) -> Option<(Event, &[u8])>
    ensures { (symbols : List (List ℕ)) → IfSome result (λ x. BeginsWith symbols (codes "ret " ++ text.now) x.0 x.1.now) }
{
    let (task, more) = task_and_end(text)?;
    Some((Event::Ret(task), more))
}

/// The rest of a line after `ente`.
#[inline(always)]
fn enter_rest(text: &[u8]) -> Option<(Event, &[u8])>
    ensures { (symbols : List (List ℕ)) → IfSome result (λ x. BeginsWith symbols (codes "ente" ++ text.now) x.0 x.1.now) }
{
    let (task, more) = task_and_end(after(b' ', after(b'r', text)?)?)?;
    Some((Event::Enter(task), more))
}

/// The rest of a line after `exit`.
#[inline(always)]
fn exit_rest(text: &[u8]) -> Option<(Event, &[u8])>
    ensures { (symbols : List (List ℕ)) → IfSome result (λ x. BeginsWith symbols (codes "exit" ++ text.now) x.0 x.1.now) }
{
    let (task, more) = task_and_end(after(b' ', text)?)?;
    Some((Event::Exit(task), more))
}

/// The rest of a line after `slee`.
#[inline(always)]
fn sleep_rest(text: &[u8]) -> Option<(Event, &[u8])>
    ensures { (symbols : List (List ℕ)) → IfSome result (λ x. BeginsWith symbols (codes "slee" ++ text.now) x.0 x.1.now) }
{
    let (task, more) = task_and_end(after(b' ', after(b'p', text)?)?)?;
    Some((Event::Sleep(task), more))
}

/// The rest of a line after `wake`.
#[inline(always)]
fn wake_rest(text: &[u8]) -> Option<(Event, &[u8])>
    ensures { (symbols : List (List ℕ)) → IfSome result (λ x. BeginsWith symbols (codes "wake" ++ text.now) x.0 x.1.now) }
{
    let (task, more) = task_and_end(after(b' ', text)?)?;
    Some((Event::Wake(task), more))
}

/// The rest of a line after `walk`.
#[inline(always)]
fn walk_rest(text: &[u8]) -> Option<(Event, &[u8])>
    ensures { (symbols : List (List ℕ)) → IfSome result (λ x. BeginsWith symbols (codes "walk" ++ text.now) x.0 x.1.now) }
{
    let more = after(b'\n', text)?;
    Some((Event::Walk, more))
}

/// The rest of a line after `stop`.
#[inline(always)]
fn stop_rest(text: &[u8]) -> Option<(Event, &[u8])>
    ensures { (symbols : List (List ℕ)) → IfSome result (λ x. BeginsWith symbols (codes "stop" ++ text.now) x.0 x.1.now) }
{
    let more = after(b'\n', text)?;
    Some((Event::Stop, more))
}

/// The rest of a line after `enab`.
#[inline(always)]
fn enable_rest(text: &[u8]) -> Option<(Event, &[u8])>
    ensures { (symbols : List (List ℕ)) → IfSome result (λ x. BeginsWith symbols (codes "enab" ++ text.now) x.0 x.1.now) }
{
    let more = after(b'\n', after(b'e', after(b'l', text)?)?)?;
    Some((Event::Enable, more))
}

/// The rest of a line after `disa`.
#[inline(always)]
fn disable_rest(text: &[u8]) -> Option<(Event, &[u8])>
    ensures { (symbols : List (List ℕ)) → IfSome result (λ x. BeginsWith symbols (codes "disa" ++ text.now) x.0 x.1.now) }
{
    let more = after(b'\n', after(b'e', after(b'l', after(b'b', text)?)?)?)?;
    Some((Event::Disable, more))
}

/// The rest of a line after `reve`.
#[inline(always)]
fn reverse_rest(text: &[u8]) -> Option<(Event, &[u8])>
    ensures { (symbols : List (List ℕ)) → IfSome result (λ x. BeginsWith symbols (codes "reve" ++ text.now) x.0 x.1.now) }
{
    let more = after(b'\n', after(b'e', after(b's', after(b'r', text)?)?)?)?;
    Some((Event::Reverse, more))
}

/// The rest of a line after `die` and a space.
#[inline(always)]
fn die_rest(text: &[u8]) -> Option<(Event, &[u8])>
    ensures { (symbols : List (List ℕ)) → IfSome result (λ x. BeginsWith symbols (codes "die " ++ text.now) x.0 x.1.now) }
{
    let (task, more) = task_and_end(text)?;
    Some((Event::Die(task), more))
}

/// The rest of a line after `idle`.
#[inline(always)]
fn idle_rest(text: &[u8]) -> Option<(Event, &[u8])>
    ensures { (symbols : List (List ℕ)) → IfSome result (λ x. BeginsWith symbols (codes "idle" ++ text.now) x.0 x.1.now) }
{
    let (task, more) = task_and_end(after(b' ', text)?)?;
    Some((Event::Idle(task), more))
}

/// The rest of a line after `fork`: the parent, the child and what it asks.
#[inline(always)]
fn fork_rest(text: &[u8]) -> Option<(Event, &[u8])>
    ensures { (symbols : List (List ℕ)) → IfSome result (λ x. BeginsWith symbols (codes "fork" ++ text.now) x.0 x.1.now) }
{
    let first = after(b' ', text)?;
    let (parent, second) = task_number(first)?;
    let third = after(b' ', second)?;
    let (child, fourth) = task_number(third)?;
    let last = after(b' ', fourth)?;
    let (how, more) = fork_kind_and_end(last)?;
    Some((Event::Fork(parent, child, how), more))
}

/// What a fork asks, which ends a line, and what stands after the line.
#[inline(always)]
fn fork_kind_and_end(text: &[u8]) -> Option<(ForkKind, &[u8])>
    ensures { IfSome result (λ x. text.now ≡ fork_word x.0 ++ 10 ∷ x.1.now) }
{
    match text {
        [b'o', b'w', b'n', b'\n', rest @ ..] => Some((ForkKind::Own, rest)),
        [b's', b'h', b'a', b'r', b'e', b'\n', rest @ ..] => Some((ForkKind::Share, rest)),
        _ => None,
    }
}

/// The rest of a line after `call`: a task and a name that was looked up before.
#[inline(always)]
fn call_rest<'a>(
    symbols: &Symbols,
    cache: &SymbolCache,
    text: &'a [u8],
) -> Option<(Event, &'a [u8])>
    requires names { AreNames symbols.now }
    ensures { IfSome result (λ x. BeginsWith symbols.now (codes "call" ++ text.now) x.0 x.1.now) }
{
    let first = after(b' ', text)?;
    let (task, second) = task_number(first)?;
    let third = after(b' ', second)?;
    let (name, left) = cut(b'\n', third);
    let Some(more) = left else {
        return None;
    };
    let func = cache.cached(symbols, name)?;
    Some((Event::Call(task, func), more))
}

/// A task's number that ends a line, and what stands after the line.
#[inline(always)]
fn task_and_end(text: &[u8]) -> Option<(TaskId, &[u8])>
    ensures task { IfSome result (λ x. IsTask x.0) }
    ensures whole { IfSome result (λ x. text.now ≡ decimal x.0.0 ++ 10 ∷ x.1.now) }
{
    let (task, rest) = task_number(text)?;
    let more = after(b'\n', rest)?;
    Some((task, more))
}

/// The task's number that a text begins with, and what stands after it.
#[inline(always)]
fn task_number(text: &[u8]) -> Option<(TaskId, &[u8])>
    ensures task { IfSome result (λ x. IsTask x.0) }
    ensures whole { IfSome result (λ x. text.now ≡ decimal x.0.0 ++ x.1.now) }
{
    let (number, rest) = number_before(5, text)?;
    if number == 0 || number >= NUMBERS as u32 {
        return None;
    }
    Some((TaskId(number as u16), rest))
}

/// The number of up to so many digits that a text begins with, and what stands after it, which is no digit.
#[inline(always)]
pub(crate) fn number_before(most: usize, text: &[u8]) -> Option<(u32, &[u8])>
    requires { most ≤ 7 }
    ensures small { IfSome result (λ x. x.0 < 10000000) }
    ensures whole { IfSome result (λ x. text.now ≡ decimal x.0 ++ x.1.now) }
{
    // At the end of a text a line is left to be read word by word, so that no digit is compared with the end.
    if text.len() <= most {
        return None;
    }
    let mut number = 0;
    for i in 0..most + 1 {
        let byte = text[i];
        if !byte.is_ascii_digit() {
            if i == 0 || text[0] == b'0' {
                return None;
            }
            return Some((number, &text[i..]));
        }
        if i == most {
            return None;
        }
        number = number * 10 + u32::from(byte - b'0');
    }
    None
}

/// What stands after a byte that a text begins with.
#[inline(always)]
pub(crate) fn after(first: u8, text: &[u8]) -> Option<&[u8]>
    ensures { IfSome result (λ rest. text.now ≡ first ∷ rest.now) }
{
    match text {
        [byte, rest @ ..] if *byte == first => Some(rest),
        _ => None,
    }
}

/// The first four bytes of a text as a number, the first one lowest, and what stands after them.
#[inline(always)]
pub(crate) fn first_four(text: &[u8]) -> Option<(u32, &[u8])>
    ensures { IfSome result (λ x. text.now ≡ to_le_bytes w32 x.0 ++ x.1.now) }
{
    match text {
        [a, b, c, d, rest @ ..] => Some((u32::from_le_bytes([*a, *b, *c, *d]), rest)),
        _ => None,
    }
}
