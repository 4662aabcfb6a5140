//! The law. Nothing here runs.
ghost use Rattle.certificate_accepted.specs.Laws.{FieldIsAccepted};

/// Each rule holds at each line of the certificate of a field, for each list of points within the limits, each capacity of the leaves, each order,
/// and the lists of the tree.
pub fn field_is_accepted()
    ensures accepted { FieldIsAccepted }
{}
