// The words of a command.
ghost use Rattle.std.specs.Prelude.{◌≡◌, ◌↔◌, true, ℕ, List, ◌+◌, ◌≤◌, ◌∷◌, [], ◌++◌, IfSome, IfNone, codes, length};
ghost use Rattle.otn_base.specs.SlotList.{IsSlotList};
ghost use Rattle.otn_base.specs.declared.limits.TheConstants.{OTU2_SLOTS};
ghost use Rattle.command_words.specs.Words.{IsForm, IsNoForm, IsNumberText, IsTurnsText, IsWaitText, texts, digit, slots_text};

use arrayvec::ArrayVec;
use client_list::ClientList;
use otn_base::limits::{MOST_TURNS, OTU2_SLOTS};
use otn_base::{LineKind, Slots};

/// A command of the program.
#[derive(Clone, Debug, PartialEq, Eq, Drop)]
pub enum Command {
    /// `slot K`: the payload bytes of one tributary slot, 1 to 8, of line input 0.
    Slot(u8),
    /// `pull PORT K,K`: what a sink of these slots and this tributary port, 1 to 8, on line input 0 emits.
    Pull(u8, Slots),
    /// `check`: whether the plan is one, and how large.
    Check,
    /// `run`: the plan carried over the places.
    Run,
    /// `run --order N`: the same, in the order that the number N, of 64 bits, settles.
    RunOrdered(u64),
    /// `run --pcap`: the same as `run`, over places whose clients may hold captures.
    RunCaptures,
    /// `trial N`: packets drawn by the number N, of 64 bits, carried through four nodes in a row.
    Trial(u64),
    /// `protect PORT K,K T N`: the tributary of this port, 1 to 8, and these slots of line inputs 0 and 1, of which the
    /// better one goes to line output 0, for T turns, 1 to 16,384; N turns of a working line that is Up again bring it
    /// back, 0 to 16,384, and 0 never does.
    Protect(u8, Slots, u32, u32),
    /// `bundle C,C T`: the packets of these clients, as the channels of the tributary of port 1 and slot 1 of line
    /// output 0, for T turns, 1 to 16,384.
    Bundle(ClientList, u32),
    /// `unbundle T`: the channels of the tributary of port 1 and slot 1 of line input 0, which go to client outputs,
    /// for T turns, 1 to 16,384.
    Unbundle(u32),
}

/// The most digits of a number among the words.
const NUMBER_DIGITS: usize = 20;

/// The most digits of a number of turns among the words.
const TURN_DIGITS: usize = 5;

/// The digit of the last slot and the last tributary port of an OTU2.
const LAST_DIGIT: u8 = b'0' + OTU2_SLOTS as u8;

/// The command whose form these words are. None where they are no command.
pub fn command_of(words: &[String]) -> Option<Command>
    ensures form { IfSome result (IsForm (texts words.now)) }
    ensures no_form { IfNone result (IsNoForm (texts words.now)) }
{
    match words {
        [name] => command_alone(name.as_str()),
        [name, word] => command_with_one(name.as_str(), word.as_str()),
        [name, word, other] => command_with_two(name.as_str(), word.as_str(), other.as_str()),
        [name, port, slots, turns, wait] => command_with_four(
            name.as_str(),
            port.as_str(),
            slots.as_str(),
            turns.as_str(),
            wait.as_str(),
        ),
        _ => None,
    }
}

/// The number N where the words are `run --order N`, and None where they are not.
pub fn order_of(words: &[String]) -> Option<u64>
    ensures order { IfSome result (λ number. IsForm (texts words.now) (Command.RunOrdered number)) }
    ensures none { IfNone result ((number : ℕ) → IsForm (texts words.now) (Command.RunOrdered number) → ⊥) }
{
    match command_of(words)? {
        Command::RunOrdered(number) => Some(number),
        _ => None,
    }
}

/// Whether the words are `run --pcap`, so that clients may be captures.
pub fn takes_captures(words: &[String]) -> bool
    ensures { result ≡ true ↔ IsForm (texts words.now) Command.RunCaptures }
{
    match command_of(words) {
        Some(command) => is_of_captures(&command),
        None => false,
    }
}

fn is_of_captures(command: &Command) -> bool
    ensures { result ≡ true ↔ command.now ≡ Command.RunCaptures }
{
    matches!(command, Command::RunCaptures)
}

// The command of one word.
fn command_alone(name: &str) -> Option<Command>
    ensures form { IfSome result (IsForm (name.now ∷ [])) }
    ensures no_form { IfNone result (IsNoForm (name.now ∷ [])) }
{
    match name {
        "check" => Some(Command::Check),
        "run" => Some(Command::Run),
        _ => None,
    }
}

// The command of a name and one word.
fn command_with_one(name: &str, word: &str) -> Option<Command>
    ensures form { IfSome result (IsForm (name.now ∷ word.now ∷ [])) }
    ensures no_form { IfNone result (IsNoForm (name.now ∷ word.now ∷ [])) }
{
    match name {
        "slot" => slot_command(word),
        "run" => captures_command(word),
        "trial" => trial_command(word),
        "unbundle" => unbundle_command(word),
        _ => None,
    }
}

// The command of a name and two words.
fn command_with_two(name: &str, word: &str, other: &str) -> Option<Command>
    ensures form { IfSome result (IsForm (name.now ∷ word.now ∷ other.now ∷ [])) }
    ensures no_form { IfNone result (IsNoForm (name.now ∷ word.now ∷ other.now ∷ [])) }
{
    match name {
        "pull" => pull_command(word, other),
        "run" => run_command(word, other),
        "bundle" => clients_command(word, other),
        _ => None,
    }
}

// The command of a name and four words.
fn command_with_four(
    name: &str,
    port: &str,
    slots: &str,
    turns: &str,
    wait: &str,
) -> Option<Command>
    ensures form { IfSome result (IsForm (name.now ∷ port.now ∷ slots.now ∷ turns.now ∷ wait.now ∷ [])) }
    ensures no_form { IfNone result (IsNoForm (name.now ∷ port.now ∷ slots.now ∷ turns.now ∷ wait.now ∷ [])) }
{
    match name {
        "protect" => protect_command(port, slots, turns, wait),
        _ => None,
    }
}

// The command `slot` with this word after it.
fn slot_command(slot: &str) -> Option<Command>
    ensures form { IfSome result (IsForm (codes "slot" ∷ slot.now ∷ [])) }
    ensures no_form { IfNone result (IsNoForm (codes "slot" ∷ slot.now ∷ [])) }
{
    Some(Command::Slot(one_digit(slot.as_bytes())?))
}

// The command `run` with this word after it.
fn captures_command(option: &str) -> Option<Command>
    ensures form { IfSome result (IsForm (codes "run" ∷ option.now ∷ [])) }
    ensures no_form { IfNone result (IsNoForm (codes "run" ∷ option.now ∷ [])) }
{
    match option {
        "--pcap" => Some(Command::RunCaptures),
        _ => None,
    }
}

// The command `trial` with this word after it.
fn trial_command(number: &str) -> Option<Command>
    ensures form { IfSome result (IsForm (codes "trial" ∷ number.now ∷ [])) }
    ensures no_form { IfNone result (IsNoForm (codes "trial" ∷ number.now ∷ [])) }
{
    Some(Command::Trial(number_of_digits(number)?))
}

// The command `unbundle` with this word after it.
fn unbundle_command(turns: &str) -> Option<Command>
    ensures form { IfSome result (IsForm (codes "unbundle" ∷ turns.now ∷ [])) }
    ensures no_form { IfNone result (IsNoForm (codes "unbundle" ∷ turns.now ∷ [])) }
{
    Some(Command::Unbundle(turns_of_digits(turns)?))
}

// The command `pull` with these words after it.
fn pull_command(port: &str, slots: &str) -> Option<Command>
    ensures form { IfSome result (IsForm (codes "pull" ∷ port.now ∷ slots.now ∷ [])) }
    ensures no_form { IfNone result (IsNoForm (codes "pull" ∷ port.now ∷ slots.now ∷ [])) }
{
    let port = one_digit(port.as_bytes())?;
    Some(Command::Pull(port, slot_digits(slots.as_bytes())?))
}

// The command `run` with these words after it.
fn run_command(option: &str, number: &str) -> Option<Command>
    ensures form { IfSome result (IsForm (codes "run" ∷ option.now ∷ number.now ∷ [])) }
    ensures no_form { IfNone result (IsNoForm (codes "run" ∷ option.now ∷ number.now ∷ [])) }
{
    match option {
        "--order" => Some(Command::RunOrdered(number_of_digits(number)?)),
        _ => None,
    }
}

// The command `bundle` with these words after it.
fn clients_command(clients: &str, turns: &str) -> Option<Command>
    ensures form { IfSome result (IsForm (codes "bundle" ∷ clients.now ∷ turns.now ∷ [])) }
    ensures no_form { IfNone result (IsNoForm (codes "bundle" ∷ clients.now ∷ turns.now ∷ [])) }
{
    let clients = ClientList::of_text(clients.as_bytes())?;
    Some(Command::Bundle(clients, turns_of_digits(turns)?))
}

// The command `protect` with these words after it.
fn protect_command(port: &str, slots: &str, turns: &str, wait: &str) -> Option<Command>
    ensures form { IfSome result (IsForm (codes "protect" ∷ port.now ∷ slots.now ∷ turns.now ∷ wait.now ∷ [])) }
    ensures no_form { IfNone result (IsNoForm (codes "protect" ∷ port.now ∷ slots.now ∷ turns.now ∷ wait.now ∷ [])) }
{
    let port = one_digit(port.as_bytes())?;
    let slots = slot_digits(slots.as_bytes())?;
    let turns = turns_of_digits(turns)?;
    Some(Command::Protect(port, slots, turns, wait_of_digits(wait)?))
}

// The number of turns, 1 to 16,384, that these digits write: 1 to 5 of them, with no sign.
fn turns_of_digits(text: &str) -> Option<u32>
    ensures number { IfSome result (IsTurnsText text.now) }
    ensures none { IfNone result ((number : ℕ) → IsTurnsText text.now number → ⊥) }
{
    match wait_of_digits(text)? {
        0 => None,
        number => Some(number),
    }
}

// The same, where it may be 0.
fn wait_of_digits(text: &str) -> Option<u32>
    ensures number { IfSome result (IsWaitText text.now) }
    ensures none { IfNone result ((number : ℕ) → IsWaitText text.now number → ⊥) }
{
    if text.len() > TURN_DIGITS {
        return None;
    }
    let number = number_of_digits(text)?;
    if number > MOST_TURNS as u64 {
        return None;
    }
    Some(number as u32)
}

// The number that these digits write, of `run --order` and of `trial`: 1 to 20 of them, with no sign, and a value of 64
// bits.
fn number_of_digits(text: &str) -> Option<u64>
    ensures number { IfSome result (IsNumberText text.now) }
    ensures none { IfNone result ((number : ℕ) → IsNumberText text.now number → ⊥) }
{
    if text.len() > NUMBER_DIGITS {
        return None;
    }
    match text.as_bytes() {
        [b'+', ..] => None,
        _ => text.parse().ok(),
    }
}

// The number, 1 to 8, that this text is the digit of.
fn one_digit(text: &[u8]) -> Option<u8>
    ensures digit { IfSome result (λ n. (text.now ≡ digit n) × (1 ≤ n) × (n ≤ OTU2_SLOTS)) }
    ensures none { IfNone result ((n : ℕ) → text.now ≡ digit n → 1 ≤ n → n ≤ OTU2_SLOTS → ⊥) }
{
    match text {
        [digit @ b'1'..=LAST_DIGIT] => Some(*digit - b'0'),
        _ => None,
    }
}

// The slots, 1 to 8 and rising, whose digits this text has, with commas between them.
fn slot_digits(text: &[u8]) -> Option<Slots>
    ensures slots { IfSome result (λ slots. (text.now ≡ slots_text slots.list) × (slots.kind ≡ LineKind.Otu2)
        × IsSlotList OTU2_SLOTS slots.list) }
    ensures none { IfNone result ((slots : List ℕ) → text.now ≡ slots_text slots → IsSlotList OTU2_SLOTS slots → ⊥) }
{
    let mut slots: ArrayVec<u8, OTU2_SLOTS> = ArrayVec::new();
    let mut rest = text;
    while rest.len() > 1 {
        if rest[1] != b',' {
            return None;
        }
        push_digit(&mut slots, &rest[..1])?;
        rest = &rest[2..];
    }
    push_digit(&mut slots, rest)?;
    Slots::new(slots.as_slice(), LineKind::Otu2)
}

// Appends the number, 1 to 8, that this text is the digit of. None where it is none, or there are eight already.
fn push_digit(slots: &mut ArrayVec<u8, OTU2_SLOTS>, text: &[u8]) -> Option<()>
    ensures pushed { IfSome result (λ _. (n : ℕ) × (text.now ≡ digit n)
        × (slots.new.items ≡ slots.old.items ++ n ∷ [])) }
    ensures none { IfNone result ((n : ℕ) → text.now ≡ digit n → 1 ≤ n → n ≤ OTU2_SLOTS
        → length slots.old.items ≡ OTU2_SLOTS) }
{
    slots.try_push(one_digit(text)?).ok()
}
