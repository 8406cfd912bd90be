//! Tables of texts and what is told of them, by subject. `rows` says how a row is written.
pub(crate) mod allocas;
pub(crate) mod bodies;
pub(crate) mod bytes;
pub(crate) mod calls;
pub(crate) mod cuts;
pub(crate) mod ends;
pub(crate) mod functions;
pub(crate) mod globals;
pub(crate) mod initialisers;
pub(crate) mod modules;
pub(crate) mod names;
pub(crate) mod operands;
pub(crate) mod operations;
pub(crate) mod tokens;
pub(crate) mod types;
pub(crate) mod words;
