//! Laws over the definitions: each function has an empty body, and its contract is the law.

ghost use Rattle.error_flow.specs.Laws.{LevelsBound, CertificatesProve, NearestBoundsErrors};

/// The bound of allowed levels is at most the change of every balanced flow.
pub fn levels_bound()
    ensures { LevelsBound }
{}

/// Where a certificate holds, its flow is nearest.
pub fn certificates_prove()
    ensures { CertificatesProve }
{}

/// No answer in the least-error model has a smaller error than the nearest flow changes.
pub fn nearest_bounds_errors()
    ensures { NearestBoundsErrors }
{}
