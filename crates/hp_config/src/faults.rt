//! Why a platform file is refused.

use hp_model::Rule;
use thiserror::Error;

/// Why a text gives no platform file.
#[derive(Debug, Drop, Error)]
pub enum ConfigFault {
    /// The text is no TOML document.
    #[error("not TOML")]
    NotToml,
    /// This rule of docs/FORMATS.md is the first that fails.
    #[error("rule {}", .0.0)]
    Rule(Rule),
    #[error("no memory")]
    NoMemory,
}
