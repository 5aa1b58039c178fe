// What changes where a number is set at a bit.
ghost use Rattle.net_graph.specs.MarkLaws.{BitsStay, EachBitHasOne, OthersStay, SetIsThere, ZerosAreZero};

/// A number that is set at a bit is there, the other bits keep theirs, and each bit of a network has one,
/// which is 0 at first.
pub fn marks_law()
    ensures set { SetIsThere }
    ensures others { OthersStay }
    ensures bits { BitsStay }
    ensures each { EachBitHasOne }
    ensures zeros { ZerosAreZero }
{}
