ghost use Rattle.lb_config_whole.specs.Whole.{KeepsServers, KeepsServerRules, KeepsBackendRules, KeepsAclLines, OfEachSection};

use lb_config_valid::checked_sections_are_valid;

/// In every valid text each section keeps all servers that its lines declare, all its rules and all lines of its ACLs, whatever
/// `defaults` stand before.
pub fn valid_texts_lose_nothing()
    ensures servers { OfEachSection (λ sections. KeepsServers) }
    ensures server_rules { OfEachSection (λ sections. KeepsServerRules) }
    ensures backend_rules { OfEachSection KeepsBackendRules }
    ensures acl_lines { OfEachSection (λ sections. KeepsAclLines) }
{
    checked_sections_are_valid();
}
