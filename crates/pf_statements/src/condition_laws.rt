//! What the elements of lists are.

ghost use Rattle.pf_rules.specs.declared.profile.Profile.{Profile};
ghost use Rattle.pf_tokens.specs.ListGrammar.{IsElement};
ghost use Rattle.pf_statements.specs.Conditions.{host_at, interface_at, interface_name_at, port_at};
ghost use Rattle.pf_statements.specs.Conditions.{protocol_at, type_at};
ghost use Rattle.pf_statements.specs.ListElements.{anything, may_follow_host, may_follow_port};

/// What may be in the lists of a statement's conditions is an element as [`pf_tokens::lists_as_spelled`] asks for
/// one: an interface, its name, a protocol, a type of ICMP, a host and a port.
pub fn elements_of_lists()
    ensures names { (profile : Profile) → IsElement (interface_name_at profile) anything }
    ensures interfaces { (profile : Profile) → IsElement (interface_at profile) anything }
    ensures protocols { (profile : Profile) → IsElement (protocol_at profile) anything }
    ensures types { (profile : Profile) → IsElement (type_at profile) anything }
    ensures hosts { (profile : Profile) → IsElement (host_at profile) may_follow_host }
    ensures ports { (profile : Profile) → IsElement (port_at profile) may_follow_port }
{}
