//! The words after the program's name.

use crate::failure::Failure;
use crate::making::{Abi, Export, Given};
use clap::error::ErrorKind;
use clap::{Arg, ArgAction, ArgMatches, Command, Error};
use rv_base::{IsaFlags, List, OutOfMemory};
use rv_listing::{decimal, first_part, next_part, starts, symbol_named, tail, with_flag};
use rv_obj::Import;
use std::alloc::Global;

fn option<'a>(alloc: Global, name: &'a str, value: &'a str, help: &'a str) -> Arg<'a> {
    Arg::new(alloc, name)
        .long(name)
        .action(ArgAction::Set)
        .value_name(value)
        .help(help)
}

fn command<'a>(alloc: Global) -> Result<Command<'a>, OutOfMemory> {
    let export = Arg::new(alloc, "export")
        .long("export")
        .action(ArgAction::Append)
        .value_name("LABEL=NAME")
        .help("A global symbol at a label of the listing, as L0=again");
    let import = Arg::new(alloc, "import")
        .long("import")
        .action(ArgAction::Append)
        .value_name("SYMBOL=NAME")
        .help("What a symbol of the report is called elsewhere, as userextname0=puts");
    let start = option(
        alloc,
        "start",
        "NAME",
        "A global symbol at the code's first byte",
    );
    let flags = option(
        alloc,
        "flags",
        "NAMES",
        "Extensions of the machine, as zca,zcb",
    );
    let abi = option(
        alloc,
        "abi",
        "NAME",
        "The calling convention, lp64 or lp64d [default: lp64]",
    );
    let command = Command::new(alloc, "rvobj")
        .version("0.1.0")
        .about("Makes of a report a relocatable object for RV64, and writes it to standard output.")
        .no_binary_name(true)
        .arg(start)?
        .arg(export)?
        .arg(import)?
        .arg(flags)?
        .arg(abi)?;
    Ok(command)
}

fn words_failure(alloc: Global, error: &Error) -> Failure {
    let Ok(text) = error.to_string(alloc) else {
        return Failure::OutOfMemory;
    };
    match error.kind() {
        ErrorKind::DisplayHelp | ErrorKind::DisplayVersion => Failure::Asked { text },
        ErrorKind::OutOfMemory => Failure::OutOfMemory,
        _ => Failure::Words { text },
    }
}

fn copy_of(alloc: Global, word: &str) -> Result<String, OutOfMemory> {
    Ok(String::from_str(alloc, word)?)
}

fn flags_named(names: &[u8]) -> Option<IsaFlags> {
    let (first, mut rest) = first_part(b',', names);
    let mut flags = with_flag(IsaFlags::none(), first)?;
    'names: while let Some((name, after)) = next_part(b',', rest) {
        flags = with_flag(flags, name)?;
        rest = after;
    }
    Some(flags)
}

fn flags_of(alloc: Global, given: Option<&str>) -> Result<IsaFlags, Failure> {
    let Some(names) = given else {
        return Ok(IsaFlags::none());
    };
    match flags_named(names.as_bytes()) {
        Some(flags) => Ok(flags),
        None => Err(Failure::Flags {
            word: copy_of(alloc, names)?,
        }),
    }
}

fn abi_of(alloc: Global, given: Option<&str>) -> Result<Abi, Failure> {
    match given {
        None | Some("lp64") => Ok(Abi::Lp64),
        Some("lp64d") => Ok(Abi::Lp64d),
        Some(word) => Err(Failure::Abi {
            word: copy_of(alloc, word)?,
        }),
    }
}

fn label_named(w: &str) -> Option<u32> {
    let w = w.as_bytes();
    if !starts(b'L', w) {
        return None;
    }
    let number = decimal(tail(w))?;
    if number < 1 << 32 {
        Some(number as u32)
    } else {
        None
    }
}

fn export_of(word: &str) -> Option<Export<'_>> {
    let (label, name) = word.split_once('=')?;
    let label = label_named(label)?;
    Some(Export {
        label: Some(label),
        name,
    })
}

fn is_named(exports: &[Export], name: &str) -> bool {
    exports.iter().any(|export| export.name == name)
}

fn put_export<'a>(
    alloc: Global,
    exports: &mut List<Export<'a>>,
    word: &str,
    export: Export<'a>,
) -> Result<(), Failure> {
    if export.name.is_empty() || is_named(exports.as_slice(), export.name) {
        return Err(Failure::Name {
            word: copy_of(alloc, word)?,
        });
    }
    exports.push(export)?;
    Ok(())
}

fn put_word<'a>(
    alloc: Global,
    exports: &mut List<Export<'a>>,
    word: &'a str,
) -> Result<(), Failure> {
    match export_of(word) {
        Some(export) => put_export(alloc, exports, word, export),
        None => Err(Failure::Export {
            word: copy_of(alloc, word)?,
        }),
    }
}

fn exports_of<'a>(alloc: Global, matches: &ArgMatches<'a>) -> Result<List<Export<'a>>, Failure> {
    let mut exports = List::new(alloc);
    if let Some(name) = matches.get_str("start") {
        put_export(alloc, &mut exports, name, Export { label: None, name })?;
    }
    if let Some(words) = matches.get_strs("export") {
        for word in words {
            put_word(alloc, &mut exports, word)?;
        }
    }
    Ok(exports)
}

fn import_of(alloc: Global, word: &str) -> Result<Import, Failure> {
    let (symbol, name) = word.split_once('=').unwrap_or((word, ""));
    let Some(symbol) = symbol_named(symbol.as_bytes()) else {
        return Err(Failure::Import {
            word: copy_of(alloc, word)?,
        });
    };
    let name = Vec::from_slice(alloc, name.as_bytes()).map_err(OutOfMemory::from)?;
    Ok(Import {
        number: symbol.number,
        name: List::from_vec(name),
    })
}

fn is_imported(imports: &[Import], number: u32) -> bool {
    imports.iter().any(|import| import.number == number)
}

fn put_import(alloc: Global, imports: &mut List<Import>, word: &str) -> Result<(), Failure> {
    let import = import_of(alloc, word)?;
    if import.name.as_slice().is_empty() || is_imported(imports.as_slice(), import.number) {
        return Err(Failure::Name {
            word: copy_of(alloc, word)?,
        });
    }
    imports.push(import)?;
    Ok(())
}

fn imports_of(alloc: Global, matches: &ArgMatches) -> Result<List<Import>, Failure> {
    let mut imports = List::new(alloc);
    if let Some(words) = matches.get_strs("import") {
        for word in words {
            put_import(alloc, &mut imports, word)?;
        }
    }
    Ok(imports)
}

/// What words give.
pub(crate) fn given_by<'a>(alloc: Global, words: &'a [String]) -> Result<Given<'a>, Failure> {
    let command = command(alloc)?;
    let matches = match command.try_get_matches_from(words) {
        Ok(matches) => matches,
        Err(error) => return Err(words_failure(alloc, &error)),
    };
    Ok(Given {
        exports: exports_of(alloc, &matches)?,
        imports: imports_of(alloc, &matches)?,
        flags: flags_of(alloc, matches.get_str("flags"))?,
        abi: abi_of(alloc, matches.get_str("abi"))?,
    })
}
