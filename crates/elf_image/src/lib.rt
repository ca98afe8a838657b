//! The loader of an image: an ELF file for RV32IM, checked and copied into memory.
#![tactic(auto)]

mod checks;
mod image;
mod layout;
mod refusal;

pub use image::{EntryPoint, load};
pub use refusal::ImageRefusal;

#[cfg(test)]
mod tests;
