//! Tests of `elf_image`, `run_texts` and `report_text` through their public calls: the file of an image, the texts of errors,
//! and the reports of traces.
//! How files are read and refused is in the folder cases/.
#![tactic(auto)]

#[cfg(test)]
mod tests;
