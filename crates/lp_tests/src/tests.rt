//! A module for the engine and the crates below it, one for desks, and one for traces and certificates, and what they share.
mod desk;
mod engine;
mod patched;
mod said;
mod trace;
