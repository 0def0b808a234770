//! Macro statements.

ghost use Rattle.std.specs.Prelude.{◌≡◌, ◌↔◌, ◌≤◌, ◌<◌, ◌^◌, ℕ, Bool, List, Ok, Err, OnOk};
ghost use Rattle.std.specs.List.{list_all, list_any};
ghost use Rattle.pf_tokens.specs.Tokens.{Token, is_name_byte};
ghost use Rattle.pf_tokens.specs.Lexed.{token_of};
ghost use Rattle.pf_tokens.specs.Parsing.{definitions, left, later};
ghost use Rattle.pf_tokens.specs.Defining.{is_refused_byte, is_refused_string, is_macro_name};
ghost use Rattle.pf_tokens.specs.inner.Defining.{len_with, appended};
ghost use Rattle.pf_tokens.specs.Defining.{definition_at, Defines};
ghost use Rattle.pf_tokens.specs.inner.Defining.{Collects};
ghost use Rattle.pf_tokens.specs.Macros.{Definition};
ghost use Rattle.pf_tokens.specs.MacroGrammar.{AllRead, IsDefinition, HasMacroFault, HasSyntaxFault};
ghost use Rattle.pf_tokens.specs.declared.defining.DefinitionFault.TheVariants.{Memory, Macro as MacroFault, Syntax};
ghost use Rattle.pf_tokens.specs.declared.defining.TheConstants.{TEXT_MAX};

use crate::lexeme::{Lexeme, is_name_byte};
use crate::macro_text::Macro;
use crate::parser::Parser;
use crate::symbol::Symbol;
use pf_rules::{Profile, is_reserved};
use std::alloc::{AllocError, AllocFailed, Global};

/// How many bytes the text of a macro has at most.
const TEXT_MAX: usize = 4096;

/// Why a macro statement defines nothing.
#[derive(Clone, Copy, PartialEq, Eq)]
pub enum DefinitionFault {
    /// Out of memory.
    Memory,
    /// The macro's name is reserved or has other characters than letters, digits and `_`, a string has `$` or `#`
    /// in its text, or the text has more than 4,096 bytes.
    Macro,
    /// It has no item, or another token than words, strings and macros.
    Syntax,
}

impl From<AllocError> for DefinitionFault {
    ghost from_gives = { λ _ e. e ≡ Memory };

    fn from(_e: AllocError) -> DefinitionFault {
        DefinitionFault::Memory
    }
}

impl<T: Drop> From<AllocFailed<T>> for DefinitionFault {
    ghost from_gives = { λ _ e. e ≡ Memory };

    fn from(_e: AllocFailed<T>) -> DefinitionFault {
        DefinitionFault::Memory
    }
}

/// The items of a macro statement.
#[derive(Drop)]
struct Items {
    /// Whether there is one.
    some: bool,
    /// Their values, joined by a blank.
    text: Vec<u8>,
    /// Whether all tokens are items.
    all: bool,
}

/// Whether all bytes may be in a macro's name.
fn are_name_bytes(name: &[u8]) -> bool
    ensures { result ≡ list_all is_name_byte name.now }
{
    name.iter().all(|b| is_name_byte(*b))
}

/// Whether the name is no reserved word and has letters, digits and `_` alone.
fn is_macro_name(profile: Profile, name: &[u8]) -> bool
    ensures { result ≡ is_macro_name profile name.now }
{
    !is_reserved(profile, name) && are_name_bytes(name)
}

/// Whether a byte may not be in a string of a macro statement.
fn has_refused_byte(text: &[u8]) -> bool
    ensures { result ≡ list_any is_refused_byte text.now }
{
    text.iter().any(|b| *b == b'$' || *b == b'#')
}

/// Whether it is a string that may not be in a macro statement.
fn is_refused_string(lexeme: Lexeme<'_>) -> bool
    ensures { result ≡ is_refused_string (token_of lexeme.entry) }
{
    matches!(lexeme, Lexeme::Quoted(text) if has_refused_byte(text))
}

/// How many bytes the text has with one more item.
fn len_with(some: bool, text: usize, item: usize) -> usize
    requires text { text ≤ TEXT_MAX }
    requires item { item < 2 ^ 63 }
    ensures { result ≡ len_with some text item }
{
    if some { text + 1 + item } else { text + item }
}

/// Appends an item, with a blank before it where it isn't the first.
fn append(text: &mut Vec<u8>, some: bool, item: &[u8]) -> Result<(), AllocError>
    ensures { OnOk result (text.new.items ≡ appended some text.old.items item.now) }
{
    if some {
        text.push(b' ')?;
    }
    Ok(text.extend_from_slice(item)?)
}

/// The items up to the end of the statement.
fn collect<'t: 's, 's>(alloc: Global, parser: &mut Parser<'t, 's>) -> Result<Items, DefinitionFault>
    ensures items { Collects result (definitions parser.old) (left parser.old) }
    ensures later { later parser.new ≡ later parser.old }
{
    let mut text = Vec::new(alloc);
    let mut some = false;
    let mut all = true;
    while let Some(lexeme) = parser.peek() {
        if is_refused_string(lexeme) {
            return Err(DefinitionFault::Macro);
        }
        let item = parser.item(lexeme);
        parser.skip();
        let Some(item) = item else {
            all = false;
            continue;
        };
        if len_with(some, text.len(), item.len()) > TEXT_MAX {
            return Err(DefinitionFault::Macro);
        }
        append(&mut text, some, item)?;
        some = true;
    }
    Ok(Items { some, text, all })
}

/// The macro that the statement defines (`pf.conf(5)`, MACROS): `WORD "=" item {item}`, each item a word, a string or
/// a macro, whose values are joined by a blank. The profile defines which names are reserved.
#[tactic(auto, unfolding(crate::specs::Defining::definition_at, crate::specs::Productions::symbol_at))]
pub fn definition<'t: 's, 's>(
    alloc: Global,
    profile: Profile,
    parser: &mut Parser<'t, 's>,
) -> Result<Macro, DefinitionFault>
    ensures value { Defines result (definition_at profile (definitions parser.old) (left parser.old)) }
    ensures later { later parser.new ≡ later parser.old }
{
    let name = parser.word().ok_or(DefinitionFault::Syntax)?;
    if !parser.accept_symbol(Symbol::Equals) {
        return Err(DefinitionFault::Syntax);
    }
    if !is_macro_name(profile, name) {
        return Err(DefinitionFault::Macro);
    }
    let Items { some, text, all } = collect(alloc, parser)?;
    if !all || !some {
        return Err(DefinitionFault::Syntax);
    }
    Ok(Macro::new(name.to_vec(alloc)?, text))
}

/// A macro statement defines a macro exactly where the grammar spells that macro so and its name, its strings and the
/// length of its text may be so. Its fault is `Macro` exactly where one of these may not, and `Syntax` exactly where
/// they may and the grammar spells no macro so. What is read is no more than the relation says, and no less.
pub fn macros_as_spelled()
    ensures made { AllRead (λ p ds ts. (made : Definition) → (definition_at p ds ts ≡ Ok made) ↔
        IsDefinition p ds ts made) }
    ensures lower { AllRead (λ p ds ts. (definition_at p ds ts ≡ Err MacroFault) ↔ HasMacroFault p ds ts) }
    ensures higher { AllRead (λ p ds ts. (definition_at p ds ts ≡ Err Syntax) ↔ HasSyntaxFault p ds ts) }
    ensures no_other { AllRead (λ p ds ts. definition_at p ds ts ≡ Err Memory → ⊥) }
{}
