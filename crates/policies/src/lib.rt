#![tactic(auto)]

pub mod first_longest;
pub mod keyed;
pub mod named;
pub mod opposite;
pub mod policy;
pub mod posix;
pub mod theorems;

pub use first_longest::FirstLongest;
pub use keyed::Keyed;
pub use named::NamedPolicy;
pub use opposite::Opposite;
pub use policy::Policy;
pub use posix::Posix;

#[cfg(test)]
mod tests;
