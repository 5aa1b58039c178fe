// The plan of one scan.

use ij_bits::List;
use net_graph::{ReadBit, WriteBit};

/// What one scan changes and compares: data bits, and select bits where it opens the way to others. Every
/// other bit on the active path is kept, and isn't compared.
///
/// Each bit is at most once in each list. Contracts see plain lists, by `seen_plan` of
/// `specs/ScanPlans.antt`.
#[derive(Drop)]
pub struct ScanPlan {
    /// The register bits that get a value.
    pub writes: List<WriteBit>,
    /// The register bits whose captured values are compared.
    pub reads: List<ReadBit>,
}
