//! Laws of differing rows, each as the contract of a function that does nothing.
ghost use Rattle.eden_lanes.specs.Laws.{IdRowsAreThoseApart, IdRowsAscend, KindRowsAreThoseApart, KindRowsAscend};

/// States what the rows of `differ_rows` are, which `count_differing` counts.
///
/// A row is among them exactly if the two columns differ at it. They ascend strictly, so
/// each is listed once.
pub fn rows_law()
    ensures apart { IdRowsAreThoseApart }
    ensures ascend { IdRowsAscend }
{}

/// States the same of the rows of `differ_kinds`.
pub fn kinds_law()
    ensures apart { KindRowsAreThoseApart }
    ensures ascend { KindRowsAscend }
{}
