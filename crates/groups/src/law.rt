//! The law of groups. Nothing here runs.
ghost use Rattle.groups.specs.Members.{OneGroupAKey, GroupsAreIndices, MembersAreInRange, MembersHaveTheKey};

/// There is one group for each key below the count; it has the indices at which the key stands, each of them one of the list's.
pub fn groups_have_their_keys()
    ensures count { OneGroupAKey }
    ensures indices { GroupsAreIndices }
    ensures in_range { MembersAreInRange }
    ensures keys { MembersHaveTheKey }
{}
