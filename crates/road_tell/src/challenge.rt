//! Errors in files of the DIMACS shortest path challenge.

use dimacs_reader::DimacsError;

/// Returns the name of the file that has the fault: the graph or its coordinates.
pub fn faulty_file<'a>(graph: &'a str, places: &'a str, fault: DimacsError) -> &'a str {
    match fault {
        DimacsError::NoProblem(2)
        | DimacsError::BadLine(2, _)
        | DimacsError::BadNumber(2, _)
        | DimacsError::TooMany(2)
        | DimacsError::Range(2, _)
        | DimacsError::Count(2)
        | DimacsError::Repeated(_) => places,
        _ => graph,
    }
}
