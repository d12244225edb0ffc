//! Tests of what stands at the program's real edges: a folder of files on a disk, and a stream over
//! a slice. They stand apart from the program, so that they link these edges alone.
#![tactic(auto)]

#[cfg(test)]
mod edges;
