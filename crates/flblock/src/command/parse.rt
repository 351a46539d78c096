//! Commands from words.

ghost use Rattle.std.specs.Prelude.{◌≡◌, ◌≤◌, ◌↔◌, ◌⊎◌, ◌∷◌, [], Err, map, IfErr, IfOk, IfSome, IfNone};
ghost use Rattle.flblock.specs.declared.command.ElementType.{ElementType};
ghost use Rattle.flblock.specs.declared.command.Verb.{Verb};
ghost use Rattle.flblock.specs.Element.{bits_of, element_word};
ghost use Rattle.flblock.specs.Verb.{verb_word};
ghost use Rattle.flblock.specs.Words.{IsCommandForm, IsDecimal, IsToldOf, IsTooWide, Names, decimal_value};

use crate::command::{Command, ElementType, Verb};
use crate::error::BlockError;

/// The most digits that a width may have.
const MOST_DIGITS: usize = 9;

/// The command that the words name: a verb, a type and a width of one to nine decimal digits, or no words at all for
/// `ramp u16 4`. The program's own name is none of them.
pub fn parse_command(words: &[&str]) -> Result<Command, BlockError>
    // The form is looked at first.
    ensures usage { result
        ≡ Err BlockError.Usage ↔ ¬ (IsCommandForm (map (λ word. word.now) words.now)) }
    ensures width { result ≡ Err BlockError.Width ↔ IsTooWide (map (λ word. word.now) words.now) }
    ensures named { IfOk result (Names (map (λ word. word.now) words.now)) }
    ensures only { IfErr result (λ e. (e ≡ BlockError.Usage) ⊎ (e ≡ BlockError.Width)) }
{
    let meant = match *words {
        [] => ("ramp", "u16", "4"),
        [verb, element, width] => (verb, element, width),
        _ => return Err(BlockError::Usage),
    };
    let (verb, element, width) = meant;
    parse_words(verb, element, width)
}

/// The command that three words name: a verb, a type and a width.
fn parse_words(verb: &str, element: &str, width: &str) -> Result<Command, BlockError>
    ensures { IsToldOf (verb.now ∷ element.now ∷ width.now ∷ []) result }
{
    let verb = parse_verb(verb).ok_or(BlockError::Usage)?;
    let element = parse_element(element).ok_or(BlockError::Usage)?;
    let width = parse_width(width).ok_or(BlockError::Usage)?;
    if width > element.bits() {
        return Err(BlockError::Width);
    }
    Ok(Command {
        verb,
        element,
        width,
    })
}

/// The verb that a word names.
fn parse_verb(word: &str) -> Option<Verb>
    ensures named { IfSome result (λ verb. word.now ≡ verb_word verb) }
    ensures other { IfNone result ((verb : Verb) → ¬ (word.now ≡ verb_word verb)) }
{
    match word {
        "ramp" => Some(Verb::Ramp),
        "pack" => Some(Verb::Pack),
        "unpack" => Some(Verb::Unpack),
        _ => None,
    }
}

/// The element type that a word names.
fn parse_element(word: &str) -> Option<ElementType>
    ensures named { IfSome result (λ element. word.now ≡ element_word element) }
    ensures other { IfNone result ((element : ElementType) → ¬ (word.now ≡ element_word element)) }
{
    match word {
        "u8" => Some(ElementType::U8),
        "u16" => Some(ElementType::U16),
        "u32" => Some(ElementType::U32),
        "u64" => Some(ElementType::U64),
        _ => None,
    }
}

/// The number that one to nine decimal digits write.
fn parse_width(word: &str) -> Option<usize>
    ensures decimal { IfSome result
        (λ width. IsDecimal word.now × (width ≡ decimal_value word.now)) }
    ensures other { IfNone result (¬ (IsDecimal word.now)) }
{
    if word.is_empty() || word.len() > MOST_DIGITS || !word.bytes().all(|b| b.is_ascii_digit()) {
        return None;
    }
    word.parse().ok()
}
