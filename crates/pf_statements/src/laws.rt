//! Laws over the definitions.

ghost use Rattle.pf_statements.specs.Grammar.{IsStatement};
ghost use Rattle.pf_statements.specs.Tables.{entry_at, may_follow_entry};
ghost use Rattle.pf_statements.specs.Statements.{Statement as IStatement, value_of};
ghost use Rattle.pf_tokens.specs.ListGrammar.{IsElement};
ghost use Rattle.pf_tokens.specs.Tokens.{Token};
ghost use Rattle.pf_rules.specs.declared.profile.Profile.{Profile as IProfile};
ghost use Rattle.std.specs.Prelude.{List, Some, ◌↔◌, ◌≡◌};

/// A statement has a value exactly where the grammar spells that value so (pf.conf(5), GRAMMAR).
pub fn reads_the_grammar()
    ensures { (profile : IProfile) (ts : List Token) (s : IStatement) → (value_of profile ts ≡ Some s) ↔
        IsStatement profile ts s }
{}

/// What may be in the list of a table is an element as [`pf_tokens::lists_as_spelled`] asks for one.
pub fn entries_of_tables()
    ensures { (profile : IProfile) → IsElement (entry_at profile) may_follow_entry }
{}
