//! The words of a command, by option.

use rv_base::List;

/// What each option was given, and the words that are no option's.
#[derive(Drop)]
pub struct Given<'a> {
    /// Whether the input is hexadecimal digits, and no report.
    pub hex: bool,
    pub trace: bool,
    pub base: Option<&'a str>,
    pub flags: Option<&'a str>,
    pub from: Option<&'a str>,
    pub at: Option<&'a str>,
    pub steps: Option<&'a str>,
    pub memory: List<&'a str>,
    pub symbols: List<&'a str>,
    pub slots: List<&'a str>,
    pub callees: List<&'a str>,
    pub setting: Option<&'a str>,
    pub answers: List<&'a str>,
    pub unit: Option<&'a str>,
    pub registers: List<&'a str>,
}
