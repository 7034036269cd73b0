//! Translators that find accesses page by page: what they find of one address they find of its whole page.
//!
//! Nothing here knows of machines, of instructions, or of how a translator keeps what it finds.
#![tactic(auto)]

mod page_translator;

pub use page_translator::PageTranslator;
