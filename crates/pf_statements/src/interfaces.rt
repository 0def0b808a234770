//! Names of interfaces, and interfaces in rules.

ghost use Rattle.pf_statements.specs.Conditions.{interface_name_at, interface_at};
ghost use Rattle.pf_statements.specs.inner.Shorter.{interface_name_shorter, interface_shorter};

use crate::common::{Read, expect};
use pf_rules::{Interface, InterfaceName, Profile, is_reserved};
use pf_tokens::{Element, Parser, Stop, Symbol};
use std::alloc::Global;

/// The name of an interface or of a group of them, which may be in a list: a word token or a string.
pub(crate) struct InterfaceNameProduction;

impl Element for InterfaceNameProduction {
    type Value = InterfaceName;

    ghost read = { interface_name_at };

    #[tactic(auto, unfolding(pf_rules::specs::Words::is_interface_name, crate::specs::Conditions::interface_name_at))]
    fn read<'t: 's, 's>(
        _alloc: Global,
        profile: Profile,
        parser: &mut Parser<'t, 's>,
    ) -> Read<InterfaceName> {
        let text = parser.name().ok_or(Stop::Syntax)?;
        expect(!is_reserved(profile, text))?;
        InterfaceName::new(text).ok_or(Stop::Syntax)
    }

    ghost shorter = { interface_name_shorter };
}

/// An interface in a rule, behind `!` or not.
pub(crate) struct InterfaceProduction;

impl Element for InterfaceProduction {
    type Value = Interface;

    ghost read = { interface_at };

    #[tactic(auto, unfolding(pf_tokens::specs::Productions::symbol_at, crate::specs::Conditions::interface_at))]
    fn read<'t: 's, 's>(
        alloc: Global,
        profile: Profile,
        parser: &mut Parser<'t, 's>,
    ) -> Read<Interface> {
        let negated = parser.accept_symbol(Symbol::Not);
        let name = InterfaceNameProduction::read(alloc, profile, parser)?;
        Ok(Interface { negated, name })
    }

    ghost shorter = { interface_shorter };
}
