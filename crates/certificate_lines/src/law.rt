//! What follows where the lines of all nodes hold. Nothing here runs.
ghost use Rattle.certificate_lines.specs.Levels.{NodesHaveLevels};

/// Where the lines of all nodes hold, each node has the level of its parent and one more, no level is above that of the grid, and so many steps up lead
/// from a node to node 0.
pub fn nodes_have_levels()
    ensures { NodesHaveLevels }
{}
