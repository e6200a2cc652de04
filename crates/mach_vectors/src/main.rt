//! The table of labels and the buffer over a toy: calls with arguments that no listing can give. What each gives is a line or more; the
//! expected output is by hand, from the rules.
#![tactic(auto)]

mod buffer;
mod constant_rows;
mod error;
mod island_rows;
mod label_table;
mod record_rows;
mod toy;

use error::ToyError;
use std::alloc::Global;
use std::process::ExitCode;

fn write(alloc: Global, text: &mut String) -> Result<(), ToyError> {
    label_table::write(alloc, text)?;
    buffer::write(alloc, text)?;
    island_rows::write(alloc, text)?;
    constant_rows::write(alloc, text)?;
    record_rows::write(alloc, text)
}

fn main(rt: HostRuntime) -> ExitCode {
    let mut text = String::new(rt.alloc());
    let written = write(rt.alloc(), &mut text);
    let _ = print!(&rt; "{text}");
    match written {
        Ok(()) => ExitCode::SUCCESS,
        Err(error) => {
            let _ = println!(&rt; "{error}");
            ExitCode::FAILURE
        }
    }
}
