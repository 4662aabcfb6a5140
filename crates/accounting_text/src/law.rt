//! The law. Nothing here runs.
ghost use Rattle.accounting_text.specs.Given.{WrittenIsGiven, CountsAreGiven, HeadIsGiven};

/// What the certificate of an accounting gives over its points is that accounting, where the accounting is one of these points. Behind the box of each
/// target stand its counts, and line 1 says how many points, targets, nodes and entries there are.
pub fn written_is_given()
    ensures same { WrittenIsGiven }
    ensures counts { CountsAreGiven }
    ensures head { HeadIsGiven }
{}
