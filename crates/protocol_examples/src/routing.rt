//! Slots, nodes and routes in a cluster.

ghost use Rattle.slot_hash.specs.Address.{address_of};
ghost use Rattle.slot_hash.specs.Crc.{crc16};
ghost use Rattle.slot_hash.specs.Tag.{hashed, slot_of};
ghost use Rattle.command_table.specs.Routing.{routing_of};
ghost use Rattle.protocol_examples.specs.Tables.{Gives};
ghost use Rattle.protocol_examples.specs.Slots.{checksums, hash_tags, slots_of_keys, addresses};
ghost use Rattle.protocol_examples.specs.SlotRows.{hosts_told, no_rows, primaries_of_slots, primary_of, rows_told};
ghost use Rattle.protocol_examples.specs.Routes.{part_of_places, routes_to_all, routes_to_any, routes_by_key, routes_by_keys, routes_by_name, commands_of_parts, agreed_by, pipelines_routed};

/// Does nothing. Its contract: the slots of these keys, by the part of each that counts and its checksum.
pub fn keys_have_these_slots()
    ensures checksums { Gives crc16 checksums }
    ensures tags { Gives hashed hash_tags }
    ensures slots { Gives slot_of slots_of_keys }
{}

/// Does nothing. Its contract: the addresses of nodes that these texts are, and that others are none.
pub fn these_texts_are_addresses()
    ensures { Gives address_of addresses }
{}

/// Does nothing. Its contract: the routes of these commands in a cluster, and the commands of their parts.
pub fn commands_have_these_routes()
    ensures all { Gives routing_of routes_to_all }
    ensures any { Gives routing_of routes_to_any }
    ensures key { Gives routing_of routes_by_key }
    ensures keys { Gives routing_of routes_by_keys }
    ensures parts { Gives part_of_places commands_of_parts }
{}

/// Does nothing. Its contract: the routes of these commands by their names.
pub fn names_have_these_routes()
    ensures { Gives routing_of routes_by_name }
{}

/// Does nothing. Its contract: the routes that the commands of these pipelines agree on, or the slots of two that don't.
pub fn pipelines_have_these_routes()
    ensures { Gives agreed_by pipelines_routed }
{}

/// Does nothing. Its contract: the rows of slots that these replies tell, that others tell none, and that of two rows
/// with a slot the last one has it.
pub fn replies_tell_these_rows()
    ensures hosts { Gives rows_told hosts_told }
    ensures none { Gives rows_told no_rows }
    ensures slots { Gives primary_of primaries_of_slots }
{}
