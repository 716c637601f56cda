//! The laws, each the contract of a function that does nothing.

ghost use Rattle.clu_link_meaning.specs.Laws.{PartsDiffer, TypesDiffer};
ghost use Rattle.clu_link_meaning.specs.Linked.{IsLinked};
ghost use Rattle.clu_link_meaning.specs.Plan.{Plan};

/// Descriptors, link tables, strings and own variables lie apart.
pub fn parts_differ()
    ensures { (p : Plan) → PartsDiffer p }
{}

/// Types have different numbers.
pub fn types_differ()
    ensures { TypesDiffer }
{}
