//! How a call of the program ends, with its status and the line of a refusal.

ghost use Rattle.std.specs.Prelude.{◌≡◌, ◌++◌, IfOk, string_bytes, codes};
ghost use Rattle.std.specs.Fmt.{decimal};
ghost use Rattle.rv_command.specs.Outcomes.{rule_name, error_line, usage_line, too_long_line, syntax_line, status_of};

use rv_base::OutOfMemory;
use rv_inst::{Code, EmitError, Rule};
use std::alloc::Global;
use std::process::ExitCode;

/// How a call of the program ended.
#[derive(Drop)]
pub enum Outcome {
    /// The job has this code, and its report or its summary was written. Status 0.
    Done { code: Code },
    /// The words are none of the command's. Status 2.
    Usage,
    /// The text's first line that is no form of a line, counted from 1, comments among them. Status 3.
    Syntax { line: usize },
    /// The job is refused, for its first cause. Status 4.
    Refused { error: EmitError },
    /// Reading failed. Status 5; nothing is written.
    ReadFault,
    /// Writing failed. Status 6; a front of the text may be written.
    WriteFault,
    /// The input has more than 16777216 bytes. Status 7.
    TooLong,
    /// Status 8; a front of the text may be written.
    OutOfMemory,
}

/// How a call of the program ended, and what is said of it to the person who called.
#[derive(Drop)]
pub struct Ending {
    pub outcome: Outcome,
    /// What to mend where there is no report, on one line: the line of the listing, its words, and why. None where there was no memory to
    /// say it.
    pub note: Option<String>,
}

impl Outcome {
    ghost use Rattle.std.specs.Process.{exit_status};
    ghost use Rattle.rv_command.specs.Outcomes.{status_of};

    /// The status that the process ends with.
    pub fn status(&self) -> u8
        ensures { result ≡ status_of self.now }
    {
        match self {
            Outcome::Done { code: _ } => 0,
            Outcome::Usage => 2,
            Outcome::Syntax { line: _ } => 3,
            Outcome::Refused { error: _ } => 4,
            Outcome::ReadFault => 5,
            Outcome::WriteFault => 6,
            Outcome::TooLong => 7,
            Outcome::OutOfMemory => 8,
        }
    }

    /// That status, as `main` returns it.
    pub fn exit_code(&self) -> ExitCode
        ensures { exit_status result ≡ status_of self.now }
    {
        ExitCode::from(self.status())
    }
}

fn rule_name(rule: Rule) -> &'static str
    ensures { result.now ≡ rule_name rule }
{
    match rule {
        Rule::Virtual => "Virtual",
        Rule::Class => "Class",
        Rule::Reserved => "Reserved",
        Rule::Zero => "Zero",
        Rule::Clash => "Clash",
        Rule::BadType => "BadType",
        Rule::Range => "Range",
        Rule::Rounding => "Rounding",
        Rule::Width => "Width",
        Rule::Constant => "Constant",
        Rule::EmptyTable => "EmptyTable",
        Rule::NoTarget => "NoTarget",
        Rule::Label => "Label",
        Rule::TailArgs => "TailArgs",
        Rule::DataSize => "DataSize",
    }
}

fn malformed_line(alloc: Global, index: usize, rule: Rule) -> Result<String, OutOfMemory>
    ensures { IfOk result (λ text. string_bytes text ≡ codes "rvemit: Malformed " ++ decimal index ++ codes " " ++ rule_name rule ++ codes "\n") }
{
    let name = rule_name(rule);
    let text = format!(in alloc; "rvemit: Malformed {index} {name}\n")?;
    Ok(text)
}

fn label_twice_line(alloc: Global, label: u32) -> Result<String, OutOfMemory>
    ensures { IfOk result (λ text. string_bytes text ≡ codes "rvemit: LabelTwice " ++ decimal label ++ codes "\n") }
{
    let text = format!(in alloc; "rvemit: LabelTwice {label}\n")?;
    Ok(text)
}

fn unbound_label_line(alloc: Global, label: u32) -> Result<String, OutOfMemory>
    ensures { IfOk result (λ text. string_bytes text ≡ codes "rvemit: UnboundLabel " ++ decimal label ++ codes "\n") }
{
    let text = format!(in alloc; "rvemit: UnboundLabel {label}\n")?;
    Ok(text)
}

fn syntax_text(alloc: Global, line: usize) -> Result<String, OutOfMemory>
    ensures { IfOk result (λ text. string_bytes text ≡ syntax_line line) }
{
    let text = format!(in alloc; "rvemit: syntax at line {line}\n")?;
    Ok(text)
}

fn bytes_of(alloc: Global, text: &[u8]) -> Result<Vec<u8>, OutOfMemory>
    ensures { IfOk result (λ bytes. bytes.items ≡ text.now) }
{
    let mut bytes = Vec::new(alloc);
    bytes.extend_from_slice(text)?;
    Ok(bytes)
}

pub(crate) fn usage_line(alloc: Global) -> Result<Vec<u8>, OutOfMemory>
    ensures { IfOk result (λ bytes. bytes.items ≡ usage_line) }
{
    bytes_of(alloc, b"rvemit: usage\n")
}

pub(crate) fn too_long_line(alloc: Global) -> Result<Vec<u8>, OutOfMemory>
    ensures { IfOk result (λ bytes. bytes.items ≡ too_long_line) }
{
    bytes_of(alloc, b"rvemit: too long\n")
}

pub(crate) fn syntax_line(alloc: Global, line: usize) -> Result<Vec<u8>, OutOfMemory>
    ensures { IfOk result (λ bytes. bytes.items ≡ syntax_line line) }
{
    Ok(syntax_text(alloc, line)?.into_bytes())
}

pub(crate) fn error_line(alloc: Global, error: &EmitError) -> Result<Vec<u8>, OutOfMemory>
    ensures { IfOk result (λ bytes. bytes.items ≡ error_line error.now) }
{
    match error {
        EmitError::OutOfMemory => bytes_of(alloc, b"rvemit: OutOfMemory\n"),
        EmitError::BadFrame => bytes_of(alloc, b"rvemit: BadFrame\n"),
        EmitError::Malformed { index, rule } => Ok(malformed_line(
            alloc, *index, *rule,
        )?.into_bytes()),
        EmitError::LabelTwice { label } => Ok(label_twice_line(alloc, *label)?.into_bytes()),
        EmitError::UnboundLabel { label } => Ok(unbound_label_line(alloc, *label)?.into_bytes()),
        EmitError::TooLarge => bytes_of(alloc, b"rvemit: TooLarge\n"),
    }
}
