//! What is printed is read back.
//!
//! Laws over the definitions of `json_values`, `json_replies`, `neutron_json` and `api_policy`: a
//! value that a body gives, as a row prints it, is read as the same value, and what stands under a
//! name of a printed row is found under that name. The functions here do nothing, and their
//! contracts are the laws.
#![tactic(auto)]

ghost use Rattle.std.specs.Prelude.{◌≡◌, ℕ, List, option_map};
ghost use Rattle.serde_json.specs.Data.{Data};
ghost use Rattle.serde_json.specs.Find.{as_bool, get};
ghost use Rattle.api_types.specs.Printed.{NamedTree, number, truth, word};
ghost use Rattle.api_policy.specs.Floatings.{floating_members};
ghost use Rattle.api_policy.specs.Groups.{direction_word, ethertype_word, group_members, protocol_word, rule_members};
ghost use Rattle.api_types.specs.declared.call.Caller.{Caller};
ghost use Rattle.api_policy.specs.Networks.{network_members};
ghost use Rattle.api_policy.specs.Ports.{port_members};
ghost use Rattle.api_policy.specs.Routers.{router_members};
ghost use Rattle.api_policy.specs.Subnets.{mode_word, subnet_members};
ghost use Rattle.api_policy.specs.Policies.{action_word, policy_members};
ghost use Rattle.api_policy.specs.Trees.{address_word, four_word, id_word, list_of, mac_word, prefix_word, route_object, span_object};
ghost use Rattle.json_trees.specs.Printed.{fields, tree_data};
ghost use Rattle.json_values.specs.Grammars.{action_of, device_owner, direction_of, ethertype_of, group_ids, group_name, host_routes, mode_of, name_servers, network_type_of, pools, port_number, project_name, protocol_of, router_routes, segment_number, short_text, subnet_prefix, target_name};
ghost use Rattle.json_values.specs.Items.{address_of, card_of, four_of, id_of, prefix_said};
ghost use Rattle.api_types.specs.RowLists.{RowLists};
ghost use Rattle.api_types.specs.declared.floating.FloatingRow.{FloatingRow};
ghost use Rattle.api_types.specs.declared.group.GroupRow.{GroupRow};
ghost use Rattle.api_types.specs.declared.group.RuleRow.{RuleRow};
ghost use Rattle.api_types.specs.declared.network.NetworkRow.{NetworkRow};
ghost use Rattle.api_types.specs.declared.policy.PolicyRow.{PolicyRow};
ghost use Rattle.api_types.specs.declared.port.PortRow.{PortRow};
ghost use Rattle.api_types.specs.declared.router.RouterRow.{RouterRow};
ghost use Rattle.api_types.specs.declared.subnet.SubnetRow.{SubnetRow};
ghost use Rattle.neutron_json.specs.Forms.{floating_form, group_form, network_form, policy_form, port_form, router_form, rule_form, subnet_form};
ghost use Rattle.json_laws.specs.Creations.{IsNetworkOf, NetworkAgain, IsSubnetOf, SubnetAgain, IsPortOf, PortAgain, IsGroupOf, GroupAgain, IsRuleOf, RuleAgain, IsRouterOf, RouterAgain, IsFloatingOf, FloatingAgain, IsPolicyOf, PolicyAgain};
ghost use Rattle.json_laws.specs.ReadBack.{IsReadBack, last_named, type_name};

/// A value that a body gives for an attribute, as rows print it, is read as the same value.
pub fn values_read_back()
    ensures texts { IsReadBack short_text word }
    ensures group_names { IsReadBack group_name word }
    ensures owners { IsReadBack device_owner word }
    ensures projects { IsReadBack project_name word }
    ensures targets { IsReadBack target_name word }
    ensures flags { IsReadBack as_bool truth }
    ensures ids { IsReadBack id_of id_word }
    ensures addresses { IsReadBack address_of address_word }
    ensures fours { IsReadBack four_of four_word }
    ensures macs { IsReadBack card_of mac_word }
    ensures prefixes { IsReadBack subnet_prefix prefix_word }
    ensures remotes { IsReadBack prefix_said prefix_word }
    ensures protocols { IsReadBack protocol_of protocol_word }
    ensures segments { IsReadBack segment_number number }
    ensures ports { IsReadBack port_number number }
    ensures types { IsReadBack network_type_of (λ x. word (type_name x)) }
    ensures directions { IsReadBack direction_of (λ x. word (direction_word x)) }
    ensures ethertypes { IsReadBack ethertype_of (λ x. word (ethertype_word x)) }
    ensures actions { IsReadBack action_of (λ x. word (action_word x)) }
    ensures modes { IsReadBack mode_of mode_word }
    ensures pools { IsReadBack pools (list_of span_object) }
    ensures name_servers { IsReadBack name_servers (list_of address_word) }
    ensures host_routes { IsReadBack host_routes (list_of route_object) }
    ensures router_routes { IsReadBack router_routes (list_of route_object) }
    ensures groups { IsReadBack group_ids (list_of id_word) }
{}

/// What stands last under a name in a list of members is found under that name in the object that
/// is printed of them.
pub fn members_are_found()
    ensures { (name : List ℕ) (members : List NamedTree)
        → get name (tree_data (fields members)) ≡ option_map tree_data (last_named name members) }
{}

/// What the body of a creation gives of an attribute that is both read and printed, the row that
/// has it prints, and it is read of what is printed as it was given. Left out are the fixed
/// addresses and pairs of ports, whose parts the server may choose, and the gateways of routers,
/// which print more than is read.
pub fn creations_read_back()
    ensures networks { (d : Data) (rows : RowLists) (caller : Caller) (r : NetworkRow)
        → IsNetworkOf (network_form d) rows r
        → NetworkAgain (network_form d)
        (network_form (tree_data (fields (network_members rows caller r)))) }
    ensures subnets { (d : Data) (r : SubnetRow) → IsSubnetOf (subnet_form d) r
        → SubnetAgain (subnet_form d) (subnet_form (tree_data (fields (subnet_members r)))) }
    ensures ports { (d : Data) (rows : RowLists) (r : PortRow) → IsPortOf (port_form d) rows r
        → PortAgain (port_form d) (port_form (tree_data (fields (port_members rows r)))) }
    ensures groups { (d : Data) (rows : RowLists) (r : GroupRow) → IsGroupOf (group_form d) rows r
        → GroupAgain (group_form d) (group_form (tree_data (fields (group_members rows r)))) }
    ensures rules { (d : Data) (r : RuleRow) → IsRuleOf (rule_form d) r
        → RuleAgain (rule_form d) r (rule_form (tree_data (fields (rule_members r)))) }
    ensures routers { (d : Data) (rows : RowLists) (r : RouterRow)
        → IsRouterOf (router_form d) rows r
        → RouterAgain (router_form d) (router_form (tree_data (fields (router_members rows r)))) }
    ensures floatings { (d : Data) (r : FloatingRow) → IsFloatingOf (floating_form d) r
        → FloatingAgain (floating_form d)
        (floating_form (tree_data (fields (floating_members r)))) }
    ensures policies { (d : Data) (r : PolicyRow) → IsPolicyOf (policy_form d) r
        → PolicyAgain (policy_form d) (policy_form (tree_data (fields (policy_members r)))) }
{}
