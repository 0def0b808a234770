//! Tokens of rulesets, and the core of their parser (`pf.conf(5)`, GRAMMAR and MACROS).
//!
//! # Organization
//!
//! - [`Text`] joins continued lines, and its [`Lexer`] goes from one statement to the next.
//! - [`Parser`] has the tokens of one statement, in which macros are replaced. A production is a function over it,
//!   whose contract speaks of `left`, the tokens that the statement still has, and of `later`, those from its end on.
//! - [`list`] and [`some`] read lists of any [`Element`], [`definition`] reads macro statements. [`lists_as_spelled`]
//!   and [`macros_as_spelled`] state that both are read exactly as the grammar spells them.
//!
//! Within: `lexeme` and `symbol` are tokens as values, `stream` the tokens of a statement with macros replaced,
//! `passed` what was passed of them, `fault` and `stop` why a statement or a list isn't read to its end.
//!
//! # Why
//!
//! - **Crates of their own** below pf_grammar, so that none passes some hundred functions and more of them are proved
//!   side by side: pf_tokens (tokens, macros, braces, lists, the parser's core), pf_statements (the parts of a rule,
//!   and statements as written), pf_expansion (lists to rules, causes), and beside them pf_rules (keywords for numbers
//!   and flags, rules, tables, names) and pf_show (how rulesets are shown). pf_grammar (the reading of a source) keeps
//!   its public interface: it hands out what they have. pf_config and pf_eval depend on rules and tables and not on how
//!   rulesets are read, so they and pf_grammar are proved side by side; pf_tool lists the layers whose definitions its
//!   contracts cite.
//! - **One relation for lists**, `IsList` in pf_tokens, for lists of any element: it is given which tokens spell an
//!   element. The grammar of statements uses it, and `lists_as_spelled` states of each element that is read alike
//!   whatever may follow it that `list` reads exactly what the relation has. An element that looks further ahead
//!   has no such law; none of the product's does, which `elements_of_lists` and `entries_of_tables` prove one by
//!   one.
//! - **Parts of rules are beside their productions**, in pf_statements, since an impl of a trait of pf_tokens
//!   must be in the crate of its type.
//! - **A macro's text isn't joined again.** Backslash-newline pairs are taken out once, of the text as given; a
//!   macro's text is cut into tokens as it is (`plain_tokens`). No macro that a source defines holds a backslash, so
//!   nobody sees the difference.
//! - **At most 65 open braces are distinguished** (`depth_after`): the 65th refuses the text, so what a deeper count
//!   would do with a later newline can't be seen. The definition says so, and the code counts in a byte.
//! - **A list's nesting is not capped** in its definition. The code counts in a `u64` and answers out of memory if
//!   that overflowed, which no text in memory can make it do.
//! - **A list keeps at most 65,536 elements**, and a statement's fault while it is read goes before what was read
//!   of it: a list with more than that has more tokens than a statement may have, so `Stop::TooMany` is never what
//!   a reader of a source sees.
//! - **Within a list newlines are blanks by being taken out** up to the brace that closes it (`blanked`), before
//!   elements are read. So they are blanks within an element too (`{ 10.0.0.1` NL `- 10.0.0.2 }`), and elements
//!   don't have them. In other braces (a block) they stay tokens.
//! - **Which strings and items of a macro statement count** for its lower fault: `$` or `#` in any string of the
//!   statement, also behind a token that is no item; the length is measured on the items that there are, joined by
//!   a blank, other tokens passed over.
//! - **The name of a macro statement** is judged before its items; both are the same fault, so no order is seen.
//!   Which words are reserved depends on the profile, which `definition` is given.
//! - **At one token** a bad byte goes before an unknown macro, and that before too many tokens or braces.
//! - **Symbols have numbers in the definitions** (`number`), so that 'this symbol' is one test and not 15 cases of
//!   each of 15.
//! - **Definitions of a name are kept all, and an index of names has the place of the last of each** (`Macros`): a
//!   look-up costs the logarithm of their number, and each name is kept twice. A hash table with a fixed
//!   seed would let a source be written whose names all meet.
//! - **A word token is tried first** (`Lexer::word`), and passed without a test whether the statement ends with it
//!   (`Parser::pass`). A second token is cut ahead only where the first isn't a word.
//! - **Whether newlines are passed in a list is asked where a token is passed** (`pass_newlines` is inlined). Lexer,
//!   `take` and `pull` aren't inlined: that costs more.
//! - **A macro knows whether its value has a token** (`Macro::is_blank`), and one without costs nothing where it is
//!   used.
#![tactic(auto)]

mod defining;
mod fault;
mod lexeme;
mod lexer;
mod lists;
mod macro_text;
mod macros;
mod parser;
mod passed;
mod stop;
mod stream;
mod symbol;
mod text;

pub use defining::{DefinitionFault, definition, macros_as_spelled};
pub use fault::ReadingFault;
pub use lexeme::Lexeme;
pub use lexer::Lexer;
pub use lists::{Element, Listed, list, lists_as_spelled, some};
pub use macro_text::Macro;
pub use macros::Macros;
pub use parser::Parser;
pub use stop::Stop;
pub use symbol::Symbol;
pub use text::Text;
